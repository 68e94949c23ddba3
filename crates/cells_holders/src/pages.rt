//! The pages of all records, one after another.
ghost use Rattle.std.specs.Prelude.{◌≡◌, ◌<◌, Some, [], ◌++◌, length, slice_get, OnOk, OnErr, IfErr};
ghost use Rattle.money.specs.declared.refusal.Refusal.TheVariants.{OutOfMemory};
ghost use Rattle.cells_holders.specs.Pages.{ids_of};
ghost use Rattle.cells_holders.specs.Opening.{AreFull, IsNext};

use cells_pages::{PAGE_RECORDS, Page, PageWords};
use money::Refusal;
use std::alloc::Global;
use std::marker::Model;

/// Pages of records of `N` words, one after another. Contracts see which page each record has.
#[derive(Drop)]
pub struct PageList<const N: usize> {
    pages: Vec<Page<N>>,
}

impl<const N: usize> Model for PageList<N> {
    ghost use Rattle.std.specs.Prelude.{List, map};
    ghost use Rattle.std.specs.List.{flat_map};
    ghost use Rattle.atomic_table.specs.Seated.{TableId};
    ghost use Rattle.cells_holders.specs.Pages.{ids_of, size_of, IsPaged};

    ghost Value = { List TableId };

    ghost view = { λ l. flat_map (λ page. ids_of N page.shared.table_id) l.pages.items };

    ghost invariant = { λ l. IsPaged (map (λ page. size_of N page.shared.table_id) l.pages.items) };
}

impl<const N: usize> PageList<N> {
    /// No page.
    pub(crate) fn new(alloc: Global) -> PageList<N>
        ensures { result ≡ [] }
    {
        PageList {
            pages: Vec::new(alloc),
        }
    }

    /// Adds a page at the end.
    pub(crate) fn push(&mut self, page: Page<N>) -> Result<(), Refusal>
        requires { AreFull self.old × IsNext N page.shared.table_id }
        ensures ok { OnOk result (self.new ≡ self.old ++ ids_of N page.entry.shared.table_id) }
        ensures err { OnErr result (self.new ≡ self.old) }
        ensures memory { IfErr result (λ e. e ≡ OutOfMemory) }
    {
        self.pages.push(page)?;
        Ok(())
    }

    /// The page of a record.
    pub fn page(&self, number: usize) -> &PageWords<N>
        requires { number < length self.now }
        ensures { slice_get self.now number ≡ Some result.now.table_id }
    {
        &self.pages[number / PAGE_RECORDS].shared
    }
}
