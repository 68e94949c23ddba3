//! The first versions of wide records, in pages, which are spent one after another as the cells are made of them.
ghost use Rattle.std.specs.Prelude.{◌≡◌, [], ◌∷◌, ◌++◌, map, length, OnOk, OnErr, IfOk};
ghost use Rattle.std.specs.List.{flat_map};
ghost use Rattle.cells_holders.specs.Pages.{IsPaged};

use crate::wide::WideNewest;
use cells_pages::PAGE_RECORDS;
use std::alloc::{AllocError, Global};
use std::marker::Model;

/// The first versions of wide records, in the order of record numbers. Contracts see the list of them. They lie in
/// pages of 4,096: the first takes memory as it grows, and each other one all of its own at once.
#[derive(Drop)]
pub struct FirstWideVersions {
    pages: Vec<Vec<WideNewest>>,
    count: usize,
}

impl Model for FirstWideVersions {
    ghost use Rattle.std.specs.Prelude.{◌≡◌, List, map, length};
    ghost use Rattle.std.specs.List.{flat_map};
    ghost use Rattle.cells_holders.specs.Pages.{IsPaged};
    ghost use Rattle.cells.specs.declared.wide.WideNewest.{WideNewest as Version};

    ghost Value = { List Version };

    ghost view = { λ w. flat_map (λ page. page.items) w.pages.items };

    ghost invariant = { λ w. IsPaged (map (λ page. length page.items) w.pages.items)
        × (w.count ≡ length (flat_map (λ page. page.items) w.pages.items)) };
}

impl FirstWideVersions {
    /// No version. Takes no memory.
    pub fn new(alloc: Global) -> FirstWideVersions
        ensures { result ≡ [] }
    {
        FirstWideVersions {
            pages: Vec::new(alloc),
            count: 0,
        }
    }

    /// How many there are.
    pub fn len(&self) -> usize
        ensures { result ≡ length self.now }
    {
        self.count
    }

    /// Adds the version of the next record: constant time, and memory for 4,096 where a page is full. Without memory
    /// nothing changes.
    pub fn push(&mut self, version: WideNewest) -> Result<(), AllocError>
        ensures ok { OnOk result (self.new ≡ self.old ++ version ∷ []) }
        ensures err { OnErr result (self.new ≡ self.old) }
    {
        let Some(count) = self.count.checked_add(1) else {
            return Err(AllocError);
        };
        push_version(&mut self.pages, self.count, version)?;
        self.count = count;
        Ok(())
    }

    // The pages, in order.
    pub(crate) fn into_pages(self) -> Vec<Vec<WideNewest>>
        ensures versions { flat_map (λ page. page.items) result.items ≡ self }
        ensures paged { IsPaged (map (λ page. length page.items) result.items) }
    {
        let FirstWideVersions { pages, count: _ } = self;
        pages
    }
}

// Adds a version to these pages, which hold so many: to the last page, or where that is full, in a new one.
fn push_version(
    pages: &mut Vec<Vec<WideNewest>>,
    count: usize,
    version: WideNewest,
) -> Result<(), AllocError>
    requires paged { IsPaged (map (λ page. length page.items) pages.old.items) }
    requires count { count ≡ length (flat_map (λ page. page.items) pages.old.items) }
    ensures paged { IsPaged (map (λ page. length page.items) pages.new.items) }
    ensures ok { OnOk result (flat_map (λ page. page.items) pages.new.items
        ≡ flat_map (λ page. page.items) pages.old.items ++ version ∷ []) }
    ensures err { OnErr result (flat_map (λ page. page.items) pages.new.items
        ≡ flat_map (λ page. page.items) pages.old.items) }
{
    if count % PAGE_RECORDS != 0 {
        pages[count / PAGE_RECORDS].push(version)?;
        return Ok(());
    }
    let room = if count == 0 { 0 } else { PAGE_RECORDS };
    pages.push(begun(*pages.allocator(), room, version)?)?;
    Ok(())
}

// A page of one version, with room for so many.
fn begun(alloc: Global, room: usize, version: WideNewest) -> Result<Vec<WideNewest>, AllocError>
    ensures { IfOk result (λ page. page.items ≡ version ∷ []) }
{
    let mut page = Vec::with_capacity(alloc, room)?;
    page.push(version)?;
    Ok(page)
}
