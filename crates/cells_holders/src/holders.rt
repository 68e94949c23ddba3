//! The pen and the readers of all records: one seat a page, in the order of pages. A seat has no bytes.
ghost use Rattle.std.specs.Prelude.{◌≡◌, ◌≢◌, ◌<◌, ◌≤◌, Some, [], length, slice_get, OnOk, OnErr, IfErr};
ghost use Rattle.cells_pages.specs.Versions.{AreVersions, last_tid, newest, tid, word_in};
ghost use Rattle.cells_holders.specs.Records.{at, StoresVersion, LoadsRecord, LearnsRecord};
ghost use Rattle.cells_holders.specs.Pages.{IsRecordSize, IsPenSeat, IsReaderSeat, written_and, sights_and};
ghost use Rattle.cells_holders.specs.Opening.{AreFull, IsNext};
ghost use Rattle.money.specs.declared.refusal.Refusal.TheVariants.{OutOfMemory};

use cells_pages::{PAGE_RECORDS, PageSeat, PageWords, head, held, meet, read, store};
use money::Refusal;
use std::alloc::Global;
use std::marker::Model;
use std::sync::Wait;

/// The right to store versions in records of `N` words, of which there is one. Contracts see it as `PagesPen`.
#[derive(Drop)]
pub struct PenOf<const N: usize> {
    seats: Vec<PageSeat>,
}

impl<const N: usize> Model for PenOf<N> {
    ghost use Rattle.cells_holders.specs.Records.{PagesPen};
    ghost use Rattle.cells_holders.specs.Pages.{written_of, ArePenSeats};

    ghost Value = { PagesPen };

    ghost view = { λ p. written_of N p.seats.items };

    ghost invariant = { λ p. ArePenSeats N p.seats.items };
}

/// The right to read records of `N` words. Contracts see it as `PagesReader`.
#[derive(Drop)]
pub struct ReaderOf<const N: usize> {
    seats: Vec<PageSeat>,
}

impl<const N: usize> Model for ReaderOf<N> {
    ghost use Rattle.cells_holders.specs.Records.{PagesReader};
    ghost use Rattle.cells_holders.specs.Pages.{sights_of, AreReaderSeats};

    ghost Value = { PagesReader };

    ghost view = { λ r. sights_of N r.seats.items };

    ghost invariant = { λ r. AreReaderSeats N r.seats.items };
}

impl<const N: usize> ReaderOf<N> {
    /// A reader of no record. Takes no memory.
    pub fn new(alloc: Global) -> ReaderOf<N>
        ensures { result ≡ record { cells = []; seen = []; loads = [] } }
    {
        ReaderOf {
            seats: Vec::new(alloc),
        }
    }

    // Adds the records of another page.
    pub(crate) fn push(&mut self, seat: PageSeat) -> Result<(), Refusal>
        requires seat { IsReaderSeat N seat }
        requires next { AreFull self.old.cells × IsNext N seat.table_id }
        ensures ok { OnOk result (self.new ≡ sights_and N self.old seat) }
        ensures err { OnErr result (self.new ≡ self.old) }
        ensures memory { IfErr result (λ e. e ≡ OutOfMemory) }
    {
        self.seats.push(seat)?;
        Ok(())
    }

    /// Loads the last version of a record, whose page this is.
    pub fn read<R: Wait>(&mut self, rt: &R, page: &PageWords<N>, number: usize) -> [u64; N]
        requires size { IsRecordSize N }
        requires own { slice_get self.old.cells number ≡ Some page.now.table_id }
        ensures { LoadsRecord self.old self.new number result }
    {
        let seat = &mut self.seats[number / PAGE_RECORDS];
        read(rt, page, seat, number % PAGE_RECORDS)
    }

    /// The reader has seen versions of, and counts loads of, the records that have cells, and of no others: a law. The
    /// function does nothing.
    pub fn knows_its_cells(&self)
        requires size { IsRecordSize N }
        ensures seen { length self.now.seen ≡ length self.now.cells }
        ensures loads { length self.now.loads ≡ length self.now.cells }
    {
        let _seats = &self.seats;
    }
}

impl<const N: usize> PenOf<N> {
    // The pen of no record.
    pub(crate) fn new(alloc: Global) -> PenOf<N>
        ensures { result ≡ record { cells = []; all = [] } }
    {
        PenOf {
            seats: Vec::new(alloc),
        }
    }

    // Adds the records of another page.
    pub(crate) fn push(&mut self, seat: PageSeat) -> Result<(), Refusal>
        requires seat { IsPenSeat N seat }
        requires next { AreFull self.old.cells × IsNext N seat.table_id }
        ensures ok { OnOk result (self.new ≡ written_and N self.old seat) }
        ensures err { OnErr result (self.new ≡ self.old) }
        ensures memory { IfErr result (λ e. e ≡ OutOfMemory) }
    {
        self.seats.push(seat)?;
        Ok(())
    }

    /// Stores a version of a record, whose page this is: one whose TID is larger than that of the latest so far. Stores
    /// only words that change.
    pub fn store(&mut self, page: &PageWords<N>, number: usize, version: [u64; N])
        requires size { IsRecordSize N }
        requires own { slice_get self.old.cells number ≡ Some page.now.table_id }
        requires larger { last_tid (at self.old.all number) < tid version }
        ensures { StoresVersion self.old self.new number version.entry }
    {
        let seat = &mut self.seats[number / PAGE_RECORDS];
        store(page, seat, number % PAGE_RECORDS, version);
    }

    /// Lets a reader see all versions of a record, whose page this is, and gives the TID word of the last.
    pub fn meet(&mut self, page: &PageWords<N>, number: usize, reader: &mut ReaderOf<N>) -> u64
        requires size { IsRecordSize N }
        requires own { slice_get self.old.cells number ≡ Some page.now.table_id }
        requires reader { slice_get reader.old.cells number ≡ Some page.now.table_id }
        ensures same { self.new ≡ self.old }
        ensures reader { LearnsRecord self.old reader.old reader.new number }
        ensures some { at self.old.all number ≢ [] }
        ensures newest { result ≡ word_in (newest (at self.old.all number)) }
    {
        let k = number / PAGE_RECORDS;
        let pen = &mut self.seats[k];
        meet(page, pen, &mut reader.seats[k], number % PAGE_RECORDS)
    }

    /// The words of the newest version of a record, whose page this is.
    #[inline(always)]
    pub fn held(&mut self, page: &PageWords<N>, number: usize) -> [u64; N]
        requires size { IsRecordSize N }
        requires own { slice_get self.old.cells number ≡ Some page.now.table_id }
        ensures same { self.new ≡ self.old }
        ensures held { result ≡ newest (at self.old.all number) }
    {
        let seat = &mut self.seats[number / PAGE_RECORDS];
        held(page, seat, number % PAGE_RECORDS)
    }

    /// The first of them, the TID word.
    #[inline(always)]
    pub fn head(&mut self, page: &PageWords<N>, number: usize) -> u64
        requires size { IsRecordSize N }
        requires own { slice_get self.old.cells number ≡ Some page.now.table_id }
        ensures same { self.new ≡ self.old }
        ensures wide { length (newest (at self.old.all number)) ≡ N }
        ensures head { result ≡ word_in (newest (at self.old.all number)) }
    {
        let seat = &mut self.seats[number / PAGE_RECORDS];
        head(page, seat, number % PAGE_RECORDS)
    }

    /// The pen knows the versions of the records that have cells, and of no others: a law. The function does nothing.
    pub fn knows_its_cells(&self)
        requires size { IsRecordSize N }
        ensures { length self.now.all ≡ length self.now.cells }
    {
        let _seats = &self.seats;
    }
}
