//! The cells of all records.
ghost use Rattle.std.specs.Prelude.{◌≡◌, ◌≢◌, ◌<◌, ◌≤◌, ℕ, List, Some, [], ◌∷◌, length, slice_get, MatchBool, is_some};
ghost use Rattle.atomic_table.specs.Seated.{TableId};
ghost use Rattle.tidword.specs.TidWord.{tid_of};
ghost use Rattle.cells.specs.Versions.{EndsWith, Has, last_tid, newest, value_in, word_in};
ghost use Rattle.cells.specs.Records.{at, cell_count, newest_words, held_by, StoresVersion, LoadsRecord, LearnsRecord};

use crate::both::{CELL_WORDS, Pen, Reader, WIDE_WORDS};
use cells_holders::PageList;
use cells_pages::PageWords;
use money::Payload;
use std::marker::Model;
use std::sync::Wait;
use tidword::TidWord;

/// A version of a record: its record number, its TID word, and its data.
#[derive(Clone, Copy, Debug, PartialEq, Eq)]
pub struct Version {
    pub record: u32,
    pub word: TidWord,
    pub payload: Payload,
}

/// A version without its record: its TID word, and its data. It is what a record begins with, or its newest version.
#[derive(Clone, Copy, Debug, PartialEq, Eq)]
pub struct Newest {
    pub word: TidWord,
    pub payload: Payload,
}

impl Newest {
    /// What the version says that its record holds: its data, or nothing where the record is absent.
    #[inline(always)]
    pub fn value(&self) -> Option<Payload>
        ensures { result ≡ value_in (newest_words self.now) }
    {
        let payload = self.payload;
        if self.word.is_absent() {
            None
        } else {
            Some(payload)
        }
    }
}

/// The cells of all records. Contracts see which cells they are: those of the narrow records, which hold a row's words
/// or a number, by record number, and those of the wide ones behind them, which hold the words of a customer's text.
#[derive(Drop)]
pub struct Cells {
    narrow: PageList<CELL_WORDS>,
    wide: PageList<WIDE_WORDS>,
    first_wide: usize,
    count: usize,
}

impl Model for Cells {
    ghost use Rattle.std.specs.Prelude.{◌≡◌, length};
    ghost use Rattle.cells.specs.Records.{CellsView, cell_count};

    ghost Value = { CellsView };

    ghost view = { λ c. record { narrow = c.narrow; wide = c.wide } };

    ghost invariant = { λ c. (c.first_wide ≡ length c.narrow)
        × (c.count ≡ cell_count (record { narrow = c.narrow; wide = c.wide })) };
}

impl Cells {
    ghost use Rattle.std.specs.Prelude.{◌+◌};
    ghost use Rattle.cells.specs.Records.{words_of};

    // The cells of these lists, of which there are so many narrow ones, and so many in all.
    pub(crate) fn of_lists(
        narrow: PageList<CELL_WORDS>,
        wide: PageList<WIDE_WORDS>,
        first_wide: usize,
        count: usize,
    ) -> Cells
        requires first { first_wide ≡ length narrow }
        requires count { count ≡ length narrow + length wide }
        ensures { result ≡ record { narrow = narrow; wide = wide } }
    {
        Cells {
            narrow,
            wide,
            first_wide,
            count,
        }
    }

    // The page of a narrow record.
    fn page(&self, number: u32) -> &PageWords<CELL_WORDS>
        requires { number < length self.now.narrow }
        ensures { slice_get self.now.narrow number ≡ Some result.now.table_id }
    {
        self.narrow.page(number as usize)
    }

    // The place of a wide record among these.
    pub(crate) fn place(&self, number: u32) -> usize
        requires { (length self.now.narrow ≤ number) × (number < cell_count self.now) }
        ensures place { length self.now.narrow + result ≡ number }
        ensures within { result < length self.now.wide }
    {
        number as usize - self.first_wide
    }

    // The page of the wide record at a place.
    pub(crate) fn wide_page(&self, place: usize) -> &PageWords<WIDE_WORDS>
        requires { place < length self.now.wide }
        ensures { slice_get self.now.wide place ≡ Some result.now.table_id }
    {
        self.wide.page(place)
    }

    /// The latest version of a narrow record, whose words are all of one version: never a mix of two (Silo, section
    /// 4.5).
    ///
    /// One load step, which takes effect between the call and the return. It tries again only where a version is
    /// being stored in this record, or has been since it began. Takes no lock and no memory.
    pub fn read<R: Wait>(&self, rt: &R, reader: &mut Reader, number: u32) -> Version
        requires own { reader.old.cells ≡ self.now }
        requires is_record { number < length self.now.narrow }
        ensures reads { LoadsRecord reader.old reader.new number (words_of result) }
        ensures record { result.record ≡ number }
    {
        let page = self.page(number);
        let [word, a, b, c, d, e, f, g] = reader.read(rt, page, number as usize);
        Version {
            record: number,
            word: TidWord::new(word),
            payload: [a, b, c, d, e, f, g],
        }
    }

    /// Makes a version the latest of its record, a narrow one: its TID is larger than that of the latest so far.
    /// Readers see all of it or nothing of it. Takes no memory. Constant time: it never waits, and stores only words
    /// that change.
    pub fn store<R: Wait>(
        &self,
        _rt: &R,
        pen: &mut Pen,
        number: u32,
        word: TidWord,
        payload: Payload,
    )
        requires own { pen.old.cells ≡ self.now }
        requires is_record { number < length self.now.narrow }
        requires larger { last_tid (at pen.old.all number) < tid_of word }
        ensures { StoresVersion pen.old pen.new number (word ∷ payload) }
    {
        let version = words(word, payload);
        pen.store(self.page(number), number as usize, version);
    }

    /// Whether a version that the reader has read is still the latest of its record (the second phase of Silo's
    /// commit, section 4.4): true exactly where its TID is the latest's, and then it is the latest.
    ///
    /// The reader has then seen all versions of the record. Takes no memory. Constant time: four loads, and it
    /// never waits.
    pub fn meet<R: Wait>(
        &self,
        rt: &R,
        pen: &mut Pen,
        reader: &mut Reader,
        version: &Version,
    ) -> bool
        requires own { (pen.old.cells ≡ self.now) × (reader.old.cells ≡ self.now) }
        requires is_record { version.now.record < cell_count self.now }
        requires seen { Has (at reader.old.seen version.now.record) (words_of version.now) }
        ensures pen { pen.new ≡ pen.old }
        ensures reader { LearnsRecord pen.old reader.old reader.new version.now.record }
        ensures latest { MatchBool result (EndsWith (at pen.old.all version.now.record) (words_of version.now))
            (tid_of version.now.word ≢ last_tid (at pen.old.all version.now.record)) }
    {
        self.is_latest(rt, pen, reader, version.record, version.word)
    }

    /// The same by the TID word alone of a version that the reader has read of a record, a narrow or a wide one.
    pub fn is_latest<R: Wait>(
        &self,
        rt: &R,
        pen: &mut Pen,
        reader: &mut Reader,
        number: u32,
        word: TidWord,
    ) -> bool
        requires own { (pen.old.cells ≡ self.now) × (reader.old.cells ≡ self.now) }
        requires is_record { number < cell_count self.now }
        ensures pen { pen.new ≡ pen.old }
        ensures reader { LearnsRecord pen.old reader.old reader.new number }
        ensures latest { (payload : List ℕ) → Has (at reader.old.seen number) (word ∷ payload)
            → MatchBool result (EndsWith (at pen.old.all number) (word ∷ payload))
            (tid_of word ≢ last_tid (at pen.old.all number)) }
    {
        let latest = self.learn(rt, pen, reader, number);
        latest.tid() == word.tid()
    }

    /// Lets a reader see all versions of a record, as one that has just stored the last of them, and gives that one's
    /// TID word. Takes no memory. Constant time: four loads, and it never waits.
    pub fn learn<R: Wait>(
        &self,
        _rt: &R,
        pen: &mut Pen,
        reader: &mut Reader,
        number: u32,
    ) -> TidWord
        requires own { (pen.old.cells ≡ self.now) × (reader.old.cells ≡ self.now) }
        requires is_record { number < cell_count self.now }
        ensures pen { pen.new ≡ pen.old }
        ensures reader { LearnsRecord pen.old reader.old reader.new number }
        ensures some { at pen.old.all number ≢ [] }
        ensures newest { result ≡ word_in (newest (at pen.old.all number)) }
    {
        if self.first_wide <= number as usize {
            return self.learn_wide(pen, reader, number);
        }
        TidWord::new(pen.meet(self.page(number), number as usize, reader))
    }

    // The same for a wide record.
    fn learn_wide(&self, pen: &mut Pen, reader: &mut Reader, number: u32) -> TidWord
        requires own { (pen.old.cells ≡ self.now) × (reader.old.cells ≡ self.now) }
        requires is_record { (length self.now.narrow ≤ number) × (number < cell_count self.now) }
        ensures pen { pen.new ≡ pen.old }
        ensures reader { LearnsRecord pen.old reader.old reader.new number }
        ensures some { at pen.old.all number ≢ [] }
        ensures newest { result ≡ word_in (newest (at pen.old.all number)) }
    {
        let place = self.place(number);
        TidWord::new(pen.meet_wide(self.wide_page(place), place, reader))
    }

    /// What a narrow record holds by its newest version: its data, or nothing where it is absent. Only the pen knows
    /// that: nobody else stores. Takes no memory. Constant time: one load where the record is absent, else one for each
    /// word and one more, and it never waits.
    #[inline(always)]
    pub fn held(&self, pen: &mut Pen, number: u32) -> Option<Payload>
        requires own { pen.old.cells ≡ self.now }
        requires is_record { number < length self.now.narrow }
        ensures pen { pen.new ≡ pen.old }
        ensures held { result ≡ held_by pen.old number }
    {
        let page = self.page(number);
        if TidWord::new(pen.head(page, number as usize)).is_absent() {
            return None;
        }
        newest_of(pen.held(page, number as usize)).value()
    }

    /// Whether a record is there, by its newest version: one load.
    #[inline(always)]
    pub fn is_present(&self, pen: &mut Pen, number: u32) -> bool
        requires own { pen.old.cells ≡ self.now }
        requires is_record { number < cell_count self.now }
        ensures pen { pen.new ≡ pen.old }
        ensures present { result ≡ is_some (held_by pen.old number) }
    {
        if self.first_wide <= number as usize {
            return self.is_wide_present(pen, number);
        }
        let word = TidWord::new(pen.head(self.page(number), number as usize));
        !word.is_absent()
    }

    // The same for a wide record.
    fn is_wide_present(&self, pen: &mut Pen, number: u32) -> bool
        requires own { pen.old.cells ≡ self.now }
        requires is_record { (length self.now.narrow ≤ number) × (number < cell_count self.now) }
        ensures pen { pen.new ≡ pen.old }
        ensures present { result ≡ is_some (held_by pen.old number) }
    {
        let place = self.place(number);
        !TidWord::new(pen.head_wide(self.wide_page(place), place)).is_absent()
    }

    /// How many records there are.
    pub fn len(&self) -> usize
        ensures { result ≡ cell_count self.now }
    {
        self.count
    }

    /// How many of them are narrow: the number of the first wide one, where there is one.
    pub fn first_wide(&self) -> usize
        ensures { result ≡ length self.now.narrow }
    {
        self.first_wide
    }
}

// The words of a version.
pub(crate) fn words(word: TidWord, payload: Payload) -> [u64; CELL_WORDS]
    ensures { result ≡ word ∷ payload }
{
    let [a, b, c, d, e, f, g] = payload;
    [word.word(), a, b, c, d, e, f, g]
}

// The version that has these words.
#[inline(always)]
fn newest_of(words: [u64; CELL_WORDS]) -> Newest
    ensures { newest_words result ≡ words }
{
    let [word, a, b, c, d, e, f, g] = words;
    Newest {
        word: TidWord::new(word),
        payload: [a, b, c, d, e, f, g],
    }
}
