//! The steps of a commit at the records' cells (Silo, section 4.4).
ghost use Rattle.std.specs.Prelude.{◌≡◌, ◌%◌, ◌∷◌, ℕ, List, Some, MatchOption};
ghost use Rattle.tidword.specs.TidWord.{tid_of};
ghost use Rattle.cells.specs.Records.{HasGrown, newest_words};
ghost use Rattle.book.specs.History.{committed_version};
ghost use Rattle.book.specs.Stamps.{greatest_tid};
ghost use Rattle.book.specs.Book.{AreInRecordOrder, AreLatest, HasConflict, IsRead, IsReadBy};
ghost use Rattle.book.specs.Storing.{MayStore, StoresEntry};

use crate::entry::Entry;
use cells::{Cells, Newest, Pen, Reader};
use money::{NO_PAYLOAD, Payload};
use readset::{ReadSet, WriteSet};
use std::sync::Wait;
use tidword::TidWord;

/// For proofs: what was read and what is to be written stand in the order of their records. Changes nothing.
pub(crate) fn in_order(reads: &ReadSet, writes: &WriteSet)
    ensures { AreInRecordOrder reads.now writes.now }
{
    reads.len();
    writes.len();
}

/// The greatest TID of what was read, if each version read is still its record's latest (phase 2). The reader may have
/// seen more by then.
pub(crate) fn validate<R: Wait>(
    rt: &R,
    cells: &Cells,
    pen: &mut Pen,
    reader: &mut Reader,
    reads: &ReadSet,
) -> Option<TidWord>
    requires own { (pen.old.cells ≡ cells.now) × (reader.old.cells ≡ cells.now) }
    requires read { IsReadBy cells.now reader.old reads.now }
    ensures pen { pen.new ≡ pen.old }
    ensures reader { HasGrown reader.old reader.new }
    ensures latest { MatchOption result (HasConflict pen.old.all reads.now)
        (λ seen. AreLatest pen.old.all reads.now × (seen ≡ greatest_tid reads.now)
        × IsRead reads.now seen) }
{
    let mut seen = 0;
    for place in 0..reads.len() {
        let (record, word) = reads.seen(place);
        if !cells.is_latest(rt, pen, reader, record, word) {
            return None;
        }
        seen = word.tid().word().max(seen);
    }
    Some(TidWord::new(seen))
}

/// Stores the versions that this commit writes (phase 3), each in one store with its TID word. The reader has then seen
/// them.
pub(crate) fn store<R: Wait>(
    rt: &R,
    cells: &Cells,
    pen: &mut Pen,
    reader: &mut Reader,
    entry: &Entry,
)
    requires { MayStore cells.now pen.old reader.old entry.now }
    ensures { StoresEntry pen.old pen.new reader.old reader.new entry.now }
{
    let (narrow, wide) = entry.writes.parts();
    for (record, value) in narrow {
        let version = version(entry.tid, value);
        cells.store(rt, pen, *record, version.word, version.payload);
        cells.learn(rt, pen, reader, *record);
    }
    for (number, words) in wide {
        let word = present_word(entry.tid);
        cells.store_wide(rt, pen, *number, word, words);
        cells.learn(rt, pen, reader, *number);
    }
}

/// The TID word of a version that a commit with this TID makes, of a record that is then there.
fn present_word(tid: TidWord) -> TidWord
    requires no_bits { tid % 8 ≡ 0 }
    ensures words { (words : List ℕ) → result ∷ words ≡ committed_version tid (Some words) }
    ensures tid { tid_of result ≡ tid }
{
    tid.installed(&Some(NO_PAYLOAD))
}

/// The version that a commit with this TID makes of a value.
fn version(tid: TidWord, value: &Option<Payload>) -> Newest
    requires no_bits { tid % 8 ≡ 0 }
    ensures words { newest_words result ≡ committed_version tid value.now }
    ensures tid { tid_of result.word ≡ tid }
{
    Newest {
        word: tid.installed(value),
        payload: match value {
            Some(words) => *words,
            None => NO_PAYLOAD,
        },
    }
}
