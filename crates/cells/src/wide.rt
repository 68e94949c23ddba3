//! The cells of wide records, whose data are the words of a customer's text (TPC-C 1.3.1, C_DATA).
ghost use Rattle.std.specs.Prelude.{◌≡◌, ◌≢◌, ◌<◌, ◌≤◌, ◌∷◌, length, MatchBool};
ghost use Rattle.tidword.specs.TidWord.{tid_of};
ghost use Rattle.cells.specs.Versions.{EndsWith, Has, last_tid, value_in, word_in};
ghost use Rattle.cells.specs.Records.{at, cell_count, held_by, wide_newest_words, StoresVersion, LoadsRecord, LearnsRecord};

use crate::both::{Pen, Reader, WIDE_WORDS};
use crate::cells::Cells;
use customer_data::{DATA_WORDS, DataWords};
use std::sync::Wait;
use tidword::TidWord;

/// A version of a wide record: its record number, its TID word, and its data.
#[derive(Clone, Copy, Debug, PartialEq, Eq)]
pub struct WideVersion {
    pub record: u32,
    pub word: TidWord,
    pub payload: DataWords,
}

/// A version without its record: its TID word, and its data. It is what a wide record begins with, or its newest
/// version.
#[derive(Clone, Copy, Debug, PartialEq, Eq)]
pub struct WideNewest {
    pub word: TidWord,
    pub payload: DataWords,
}

impl WideNewest {
    /// What the version says that its record holds: its data, or nothing where the record is absent.
    pub fn value(&self) -> Option<DataWords>
        ensures { result ≡ value_in (wide_newest_words self.now) }
    {
        let payload = self.payload;
        if self.word.is_absent() {
            None
        } else {
            Some(payload)
        }
    }
}

impl Cells {
    ghost use Rattle.cells.specs.Records.{wide_words_of};

    /// The latest version of a wide record, whose words are all of one version, as `read` gives that of a narrow one.
    pub fn read_wide<R: Wait>(&self, rt: &R, reader: &mut Reader, number: u32) -> WideVersion
        requires own { reader.old.cells ≡ self.now }
        requires is_record { (length self.now.narrow ≤ number) × (number < cell_count self.now) }
        ensures reads { LoadsRecord reader.old reader.new number (wide_words_of result) }
        ensures record { result.record ≡ number }
    {
        let place = self.place(number);
        let words = reader.read_wide(rt, self.wide_page(place), place);
        WideVersion {
            record: number,
            word: TidWord::new(words[0]),
            payload: payload_of(&words),
        }
    }

    /// Makes a version the latest of its record, a wide one, as `store` does with a narrow one.
    pub fn store_wide<R: Wait>(
        &self,
        _rt: &R,
        pen: &mut Pen,
        number: u32,
        word: TidWord,
        payload: &DataWords,
    )
        requires own { pen.old.cells ≡ self.now }
        requires is_record { (length self.now.narrow ≤ number) × (number < cell_count self.now) }
        requires larger { last_tid (at pen.old.all number) < tid_of word }
        ensures { StoresVersion pen.old pen.new number (word ∷ payload.now) }
    {
        let place = self.place(number);
        let version = wide_words(word, payload);
        pen.store_wide(self.wide_page(place), place, version);
    }

    /// Whether a version that the reader has read is still the latest of its record, as `meet` tells of a narrow one.
    pub fn meet_wide<R: Wait>(
        &self,
        rt: &R,
        pen: &mut Pen,
        reader: &mut Reader,
        version: &WideVersion,
    ) -> bool
        requires own { (pen.old.cells ≡ self.now) × (reader.old.cells ≡ self.now) }
        requires is_record { version.now.record < cell_count self.now }
        requires seen { Has (at reader.old.seen version.now.record) (wide_words_of version.now) }
        ensures pen { pen.new ≡ pen.old }
        ensures reader { LearnsRecord pen.old reader.old reader.new version.now.record }
        ensures latest { MatchBool result
            (EndsWith (at pen.old.all version.now.record) (wide_words_of version.now))
            (tid_of version.now.word ≢ last_tid (at pen.old.all version.now.record)) }
    {
        self.is_latest(rt, pen, reader, version.record, version.word)
    }

    /// What a wide record holds by its newest version, as `held` tells of a narrow one: 65 loads at most.
    pub fn held_wide(&self, pen: &mut Pen, number: u32) -> Option<DataWords>
        requires own { pen.old.cells ≡ self.now }
        requires is_record { (length self.now.narrow ≤ number) × (number < cell_count self.now) }
        ensures pen { pen.new ≡ pen.old }
        ensures held { result ≡ held_by pen.old number }
    {
        let place = self.place(number);
        let words = pen.held_wide(self.wide_page(place), place);
        WideNewest {
            word: TidWord::new(words[0]),
            payload: payload_of(&words),
        }
        .value()
    }
}

// The words of a version.
pub(crate) fn wide_words(word: TidWord, payload: &DataWords) -> [u64; WIDE_WORDS]
    ensures { result ≡ word ∷ payload.now }
{
    let mut words = [word.word(); WIDE_WORDS];
    words[1..].copy_from_slice(payload);
    words
}

// The data of the version that has these words.
fn payload_of(words: &[u64; WIDE_WORDS]) -> DataWords
    ensures { words.now ≡ word_in words.now ∷ result }
{
    let mut payload = [0; DATA_WORDS];
    payload.copy_from_slice(&words[1..]);
    payload
}
