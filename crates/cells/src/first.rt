//! The first versions of records, in pages of which one takes memory only where a record of it is there. They are
//! spent a page at a time, as the cells are made of them.
ghost use Rattle.std.specs.Prelude.{◌≡◌, ◌*◌, ◌<◌, ◌≤◌, IsTrue, List, [], ◌∷◌, map, length, replicate};
ghost use Rattle.std.specs.Prelude.{slice_index_or, slice_set, OnOk, OnErr, IfOk};
ghost use Rattle.std.specs.List.{flat_map};
ghost use Rattle.cells.specs.First.{absent_version, page_versions};
ghost use Rattle.cells_holders.specs.Pages.{IsPaged};

use crate::cells::Newest;
use cells_pages::PAGE_RECORDS;
use money::NO_PAYLOAD;
use std::alloc::{AllocError, Global};
use std::marker::Model;
use tidword::TidWord;

// What a record begins with that isn't there.
const ABSENT: Newest = Newest {
    word: TidWord::ABSENT,
    payload: NO_PAYLOAD,
};

// The first versions of the records of one page: all of them, or none where all are absent. Contracts see the list.
#[derive(Drop)]
pub(crate) struct FirstPage {
    count: usize,
    versions: Vec<Newest>,
}

impl Model for FirstPage {
    ghost use Rattle.std.specs.Prelude.{◌≡◌, ◌<◌, List, length};
    ghost use Rattle.cells.specs.First.{page_versions};
    ghost use Rattle.cells.specs.declared.cells.Newest.{Newest as Version};

    ghost Value = { List Version };

    ghost view = { λ p. page_versions p.count p.versions.items };

    ghost invariant = { λ p. 0 < length p.versions.items → length p.versions.items ≡ p.count };
}

impl FirstPage {
    // So many absent records. Takes no memory.
    pub(crate) fn absent(alloc: Global, count: usize) -> FirstPage
        ensures { result ≡ replicate count absent_version }
    {
        FirstPage {
            count,
            versions: Vec::new(alloc),
        }
    }

    // The version of the record at a place.
    #[inline(always)]
    fn get(&self, place: usize) -> Newest
        requires { place < length self.now }
        ensures { result ≡ slice_index_or self.now place result }
    {
        if self.versions.is_empty() {
            return ABSENT;
        }
        self.versions[place]
    }

    // Gives the record at a place another version.
    #[inline(always)]
    fn set(&mut self, place: usize, version: Newest) -> Result<(), AllocError>
        requires { place < length self.old }
        ensures count { length self.new ≡ length self.old }
        ensures ok { OnOk result (self.new ≡ slice_set self.old place version) }
        ensures err { OnErr result (self.new ≡ self.old) }
    {
        fill(self.count, &mut self.versions)?;
        self.versions[place] = version;
        Ok(())
    }

    // Whether this is a whole page of absent records, as far as that is seen at once.
    pub(crate) fn is_blank(&self) -> bool
        ensures { IsTrue result → self.now ≡ replicate 4096 absent_version }
    {
        self.versions.is_empty() && self.count == PAGE_RECORDS
    }

    // The versions themselves.
    pub(crate) fn into_versions(self) -> Result<Vec<Newest>, AllocError>
        ensures { IfOk result (λ versions. versions.items ≡ self) }
    {
        let FirstPage {
            count,
            mut versions,
        } = self;
        fill(count, &mut versions)?;
        Ok(versions)
    }
}

// Lays the versions of a page of absent records, where none is given yet.
fn fill(count: usize, versions: &mut Vec<Newest>) -> Result<(), AllocError>
    ensures ok { OnOk result (versions.new.items ≡ page_versions count versions.old.items) }
    ensures err { OnErr result (versions.new.items ≡ versions.old.items) }
{
    if versions.is_empty() {
        versions.resize(count, ABSENT)?;
    }
    Ok(())
}

/// The first versions of records, in the order of record numbers. Contracts see the list of them. They lie in pages of
/// 4,096, and one of which no record was set takes no memory.
#[derive(Drop)]
pub struct FirstVersions {
    pages: Vec<FirstPage>,
    count: usize,
}

impl Model for FirstVersions {
    ghost use Rattle.std.specs.Prelude.{◌≡◌, List, map, length};
    ghost use Rattle.std.specs.List.{flat_map};
    ghost use Rattle.cells_holders.specs.Pages.{IsPaged};
    ghost use Rattle.cells.specs.declared.cells.Newest.{Newest as Version};

    ghost Value = { List Version };

    ghost view = { λ f. flat_map (λ page. page) f.pages.items };

    ghost invariant = { λ f. IsPaged (map length f.pages.items)
        × (f.count ≡ length (flat_map (λ page. page) f.pages.items)) };
}

impl FirstVersions {
    /// So many absent records. Takes memory for the list of pages alone.
    pub fn absent(alloc: Global, count: usize) -> Result<FirstVersions, AllocError>
        ensures { IfOk result (λ first. first ≡ replicate count absent_version) }
    {
        let pages = absent_pages(alloc, count)?;
        Ok(FirstVersions { pages, count })
    }

    /// How many records there are.
    pub fn len(&self) -> usize
        ensures { result ≡ length self.now }
    {
        self.count
    }

    /// The version of a record.
    #[inline(always)]
    pub fn get(&self, number: usize) -> Newest
        requires { number < length self.now }
        ensures { result ≡ slice_index_or self.now number result }
    {
        self.pages[number / PAGE_RECORDS].get(number % PAGE_RECORDS)
    }

    /// Gives a record another version. Takes memory for its page where none of its records was set so far; without it
    /// nothing changes.
    #[inline(always)]
    pub fn set(&mut self, number: usize, version: Newest) -> Result<(), AllocError>
        requires { number < length self.old }
        ensures ok { OnOk result (self.new ≡ slice_set self.old number version) }
        ensures err { OnErr result (self.new ≡ self.old) }
    {
        self.pages[number / PAGE_RECORDS].set(number % PAGE_RECORDS, version)
    }

    // The pages, in order.
    pub(crate) fn into_pages(self) -> Vec<FirstPage>
        ensures versions { flat_map (λ page. page) result.items ≡ self }
        ensures paged { IsPaged (map length result.items) }
    {
        let FirstVersions { pages, count: _ } = self;
        pages
    }
}

// The pages of so many absent records.
fn absent_pages(alloc: Global, count: usize) -> Result<Vec<FirstPage>, AllocError>
    ensures paged { IfOk result (λ pages. IsPaged (map length pages.items)) }
    ensures absent { IfOk result (λ pages. flat_map (λ page. page) pages.items ≡ replicate count absent_version) }
{
    let mut pages = whole_pages(alloc, count / PAGE_RECORDS)?;
    let rest = count % PAGE_RECORDS;
    if rest == 0 {
        return Ok(pages);
    }
    pages.push(FirstPage::absent(alloc, rest))?;
    Ok(pages)
}

// So many whole pages of absent records.
fn whole_pages(alloc: Global, count: usize) -> Result<Vec<FirstPage>, AllocError>
    ensures { IfOk result (λ pages. pages.items ≡ replicate count (replicate 4096 absent_version)) }
{
    let mut pages = Vec::new(alloc);
    for _ in 0..count {
        pages.push(FirstPage::absent(alloc, PAGE_RECORDS))?;
    }
    Ok(pages)
}
