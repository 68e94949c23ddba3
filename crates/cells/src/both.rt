//! The pen and the readers of all records: of the narrow ones and of the wide ones.
ghost use Rattle.std.specs.Prelude.{◌≡◌, ◌≢◌, ◌+◌, ◌<◌, Some, [], length, slice_get};
ghost use Rattle.cells_pages.specs.Versions.{last_tid, newest, tid, word_in};
ghost use Rattle.cells.specs.Records.{at, cell_count, StoresVersion, LoadsRecord, LearnsRecord};

use cells_holders::{PenOf, ReaderOf};
use cells_pages::PageWords;
use customer_data::DATA_WORDS;
use money::PAYLOAD_WORDS;
use std::alloc::Global;
use std::marker::Model;
use std::sync::Wait;

/// How many words a version has: its TID word, and its data.
pub(crate) const CELL_WORDS: usize = 1 + PAYLOAD_WORDS;

pub(crate) const WIDE_WORDS: usize = 1 + DATA_WORDS;

/// The right to store versions, of which there is one. Contracts see what it knows of each record, by record
/// number: its cell, and all its versions (`PenView`). It has no bytes of its own a record.
#[derive(Drop)]
pub struct Pen {
    narrow: PenOf<CELL_WORDS>,
    wide: PenOf<WIDE_WORDS>,
}

impl Model for Pen {
    ghost use Rattle.cells.specs.Records.{PenView, both_pens};

    ghost Value = { PenView };

    ghost view = { λ p. both_pens p.narrow p.wide };
}

/// The right to read. Contracts see what it knows of each record, by record number: its cell, which first ones of
/// its versions this reader has seen, and how often it has loaded (`ReaderView`). It has no bytes of its own a record.
#[derive(Drop)]
pub struct Reader {
    narrow: ReaderOf<CELL_WORDS>,
    wide: ReaderOf<WIDE_WORDS>,
}

impl Model for Reader {
    ghost use Rattle.cells.specs.Records.{ReaderView, both_readers};

    ghost Value = { ReaderView };

    ghost view = { λ r. both_readers r.narrow r.wide };
}

impl Reader {
    ghost use Rattle.cells.specs.Records.{both_readers};

    /// A reader of no record. Takes no memory.
    pub fn new(alloc: Global) -> Reader
        ensures { result ≡ record { cells = record { narrow = []; wide = [] }; seen = []; loads = [] } }
    {
        Reader {
            narrow: ReaderOf::new(alloc),
            wide: ReaderOf::new(alloc),
        }
    }

    // The reader who knows what these two do.
    pub(crate) fn of(narrow: ReaderOf<CELL_WORDS>, wide: ReaderOf<WIDE_WORDS>) -> Reader
        ensures { result ≡ both_readers narrow wide }
    {
        Reader { narrow, wide }
    }

    // Loads the last version of a narrow record, whose page this is.
    pub(crate) fn read<R: Wait>(
        &mut self,
        rt: &R,
        page: &PageWords<CELL_WORDS>,
        number: usize,
    ) -> [u64; CELL_WORDS]
        requires own { slice_get self.old.cells.narrow number ≡ Some page.now.table_id }
        ensures { LoadsRecord self.old self.new number result }
    {
        self.narrow.knows_its_cells();
        self.narrow.read(rt, page, number)
    }

    // Loads the last version of a wide record, whose page this is.
    pub(crate) fn read_wide<R: Wait>(
        &mut self,
        rt: &R,
        page: &PageWords<WIDE_WORDS>,
        place: usize,
    ) -> [u64; WIDE_WORDS]
        requires own { slice_get self.old.cells.wide place ≡ Some page.now.table_id }
        ensures { LoadsRecord self.old self.new (length self.old.cells.narrow + place) result }
    {
        self.narrow.knows_its_cells();
        self.wide.read(rt, page, place)
    }
}

impl Pen {
    ghost use Rattle.cells.specs.Records.{both_pens};

    // The pen that knows what these two do.
    pub(crate) fn of(narrow: PenOf<CELL_WORDS>, wide: PenOf<WIDE_WORDS>) -> Pen
        ensures { result ≡ both_pens narrow wide }
    {
        Pen { narrow, wide }
    }

    /// The pen knows the versions of the records that have cells, and of no others: a law. The function does nothing.
    pub fn knows_its_cells(&self)
        ensures { length self.now.all ≡ cell_count self.now.cells }
    {
        self.narrow.knows_its_cells();
        self.wide.knows_its_cells();
    }

    // Stores a version of a narrow record, whose page this is.
    pub(crate) fn store(
        &mut self,
        page: &PageWords<CELL_WORDS>,
        number: usize,
        version: [u64; CELL_WORDS],
    )
        requires own { slice_get self.old.cells.narrow number ≡ Some page.now.table_id }
        requires larger { last_tid (at self.old.all number) < tid version }
        ensures { StoresVersion self.old self.new number version }
    {
        self.narrow.knows_its_cells();
        self.narrow.store(page, number, version);
    }

    // Stores a version of a wide record, whose page this is.
    pub(crate) fn store_wide(
        &mut self,
        page: &PageWords<WIDE_WORDS>,
        place: usize,
        version: [u64; WIDE_WORDS],
    )
        requires own { slice_get self.old.cells.wide place ≡ Some page.now.table_id }
        requires larger { last_tid (at self.old.all (length self.old.cells.narrow + place)) < tid version }
        ensures { StoresVersion self.old self.new (length self.old.cells.narrow + place) version }
    {
        self.narrow.knows_its_cells();
        self.wide.store(page, place, version);
    }

    // Lets a reader see all versions of a narrow record, whose page this is, and gives the TID word of the last.
    pub(crate) fn meet(
        &mut self,
        page: &PageWords<CELL_WORDS>,
        number: usize,
        reader: &mut Reader,
    ) -> u64
        requires own { slice_get self.old.cells.narrow number ≡ Some page.now.table_id }
        requires reader { reader.old.cells ≡ self.old.cells }
        ensures same { self.new ≡ self.old }
        ensures reader { LearnsRecord self.old reader.old reader.new number }
        ensures some { at self.old.all number ≢ [] }
        ensures newest { result ≡ word_in (newest (at self.old.all number)) }
    {
        self.narrow.knows_its_cells();
        reader.narrow.knows_its_cells();
        self.narrow.meet(page, number, &mut reader.narrow)
    }

    // Lets a reader see all versions of a wide record, whose page this is, and gives the TID word of the last.
    pub(crate) fn meet_wide(
        &mut self,
        page: &PageWords<WIDE_WORDS>,
        place: usize,
        reader: &mut Reader,
    ) -> u64
        requires own { slice_get self.old.cells.wide place ≡ Some page.now.table_id }
        requires reader { reader.old.cells ≡ self.old.cells }
        ensures same { self.new ≡ self.old }
        ensures reader { LearnsRecord self.old reader.old reader.new (length self.old.cells.narrow + place) }
        ensures some { at self.old.all (length self.old.cells.narrow + place) ≢ [] }
        ensures newest { result
            ≡ word_in (newest (at self.old.all (length self.old.cells.narrow + place))) }
    {
        self.narrow.knows_its_cells();
        reader.narrow.knows_its_cells();
        self.wide.meet(page, place, &mut reader.wide)
    }

    // The words of the newest version of a narrow record, whose page this is.
    #[inline(always)]
    pub(crate) fn held(&mut self, page: &PageWords<CELL_WORDS>, number: usize) -> [u64; CELL_WORDS]
        requires own { slice_get self.old.cells.narrow number ≡ Some page.now.table_id }
        ensures same { self.new ≡ self.old }
        ensures held { result ≡ newest (at self.old.all number) }
    {
        self.narrow.knows_its_cells();
        self.narrow.held(page, number)
    }

    // The first of them, the TID word.
    #[inline(always)]
    pub(crate) fn head(&mut self, page: &PageWords<CELL_WORDS>, number: usize) -> u64
        requires own { slice_get self.old.cells.narrow number ≡ Some page.now.table_id }
        ensures same { self.new ≡ self.old }
        ensures wide { length (newest (at self.old.all number)) ≡ 8 }
        ensures head { result ≡ word_in (newest (at self.old.all number)) }
    {
        self.narrow.knows_its_cells();
        self.narrow.head(page, number)
    }

    // The TID word of the newest version of a wide record, whose page this is.
    pub(crate) fn head_wide(&mut self, page: &PageWords<WIDE_WORDS>, place: usize) -> u64
        requires own { slice_get self.old.cells.wide place ≡ Some page.now.table_id }
        ensures same { self.new ≡ self.old }
        ensures wide { length (newest (at self.old.all (length self.old.cells.narrow + place))) ≡ 64 }
        ensures head { result
            ≡ word_in (newest (at self.old.all (length self.old.cells.narrow + place))) }
    {
        self.narrow.knows_its_cells();
        self.wide.head(page, place)
    }

    // The words of the newest version of a wide record, whose page this is.
    pub(crate) fn held_wide(
        &mut self,
        page: &PageWords<WIDE_WORDS>,
        place: usize,
    ) -> [u64; WIDE_WORDS]
        requires own { slice_get self.old.cells.wide place ≡ Some page.now.table_id }
        ensures same { self.new ≡ self.old }
        ensures held { result ≡ newest (at self.old.all (length self.old.cells.narrow + place)) }
    {
        self.narrow.knows_its_cells();
        self.wide.held(page, place)
    }
}
