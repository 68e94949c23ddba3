//! Making the pages, with their pen and their readers.
ghost use Rattle.std.specs.Prelude.{◌≡◌, ℕ, ◌*◌, ◌<◌, ◌≤◌, All, List, length, map, OnOk, IfOk, IfErr};
ghost use Rattle.money.specs.declared.refusal.Refusal.TheVariants.{OutOfMemory};
ghost use Rattle.atomic_table.specs.Seated.{TableId};
ghost use Rattle.cells_holders.specs.Records.{PagesReader};
ghost use Rattle.cells_pages.specs.Rule.{first_versions};
ghost use Rattle.cells_holders.specs.Pages.{IsRecordSize, IsPenSeat, ids_of};
ghost use Rattle.cells_holders.specs.Opening.{seen_all, without_records, opened_with, sights_with, AreFull, IsNext};

use crate::holders::{PenOf, ReaderOf};
use crate::pages::PageList;
use cells_pages::{PageSeat, PageWords, open, start};
use money::Refusal;
use std::alloc::Global;
use std::marker::Model;

/// Pages that are being made, in the order of record numbers, with their pen and their readers. Contracts see what the
/// pen knows, and how many readers there are (`Opened`).
#[derive(Drop)]
pub struct OpeningOf<const N: usize> {
    list: PageList<N>,
    pen: PenOf<N>,
    readers: Vec<ReaderOf<N>>,
}

impl<const N: usize> Model for OpeningOf<N> {
    ghost use Rattle.std.specs.Prelude.{◌≡◌, All, length};
    ghost use Rattle.cells_holders.specs.Opening.{Opened, seen_all};

    ghost Value = { Opened };

    ghost view = { λ o. record { written = o.pen; readers = length o.readers.items } };

    ghost invariant = { λ o. (o.list ≡ o.pen.cells) × All (λ reader. reader ≡ seen_all o.pen) o.readers.items };
}

impl<const N: usize> OpeningOf<N> {
    /// No record yet, and this many readers.
    pub fn new(alloc: Global, readers: usize) -> Result<OpeningOf<N>, Refusal>
        ensures ok { IfOk result (λ o. o ≡ without_records readers) }
        ensures memory { IfErr result (λ e. e ≡ OutOfMemory) }
    {
        let mut list = Vec::new(alloc);
        for _ in 0..readers {
            list.push(ReaderOf::new(alloc))?;
        }
        Ok(OpeningOf {
            list: PageList::new(alloc),
            pen: PenOf::new(alloc),
            readers: list,
        })
    }

    /// Adds a page, which begins with these words. A refusal spends it all.
    pub fn add(self, alloc: Global, words: &Vec<u64>) -> Result<OpeningOf<N>, Refusal>
        requires size { IsRecordSize N }
        requires full { AreFull self.written.cells }
        requires words { (count : ℕ) × (length words.now.items ≡ count * N) × (0 < count) × (count ≤ 4096) }
        ensures ok { IfOk result (λ o. (cells : List TableId)
            × (length cells ≡ length (first_versions N words.now.items))
            × (o ≡ opened_with self.entry cells (first_versions N words.now.items))) }
        ensures memory { IfErr result (λ e. e ≡ OutOfMemory) }
    {
        let (page, mut seat) = open(alloc, words)?;
        let OpeningOf {
            mut list,
            mut pen,
            mut readers,
        } = self;
        tell(&page.shared, &mut seat, &mut readers)?;
        pen.push(seat)?;
        list.push(page)?;
        Ok(OpeningOf { list, pen, readers })
    }

    /// The pages, the pen and the readers.
    pub fn finish(self) -> (PageList<N>, PenOf<N>, Vec<ReaderOf<N>>)
        ensures list { result.0 ≡ result.1.cells }
        ensures pen { result.1 ≡ self.entry.written }
        ensures readers { (length result.2.items ≡ self.entry.readers)
            × All (λ reader. reader ≡ seen_all self.entry.written) result.2.items }
    {
        let OpeningOf { list, pen, readers } = self;
        (list, pen, readers)
    }
}

// Adds a page to each reader, which has then seen what the pen has.
fn tell<const N: usize>(
    page: &PageWords<N>,
    pen: &mut PageSeat,
    readers: &mut [ReaderOf<N>],
) -> Result<(), Refusal>
    requires own { (pen.old.table_id ≡ page.now.table_id) × (0 < page.now.table_id.words) }
    requires pen { IsPenSeat N pen.old }
    requires full { All (λ reader. AreFull reader.cells) readers.old }
    requires next { IsNext N pen.old.table_id }
    ensures kept { (pen.new.table_id ≡ pen.old.table_id) × (pen.new.me.0 ≡ pen.old.me.0) }
    ensures ok { OnOk result (readers.new
        ≡ map (λ s. sights_with s (ids_of N pen.old.table_id) pen.old.me.0.seen) readers.old) }
    ensures memory { IfErr result (λ e. e ≡ OutOfMemory) }
{
    for reader in readers {
        reader.push(start(page, pen))?;
    }
    Ok(())
}
