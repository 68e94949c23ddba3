//! What stands in an engine and in a log file, to be compared.
ghost use Rattle.std.specs.Prelude.{◌≡◌};
ghost use Rattle.tables.specs.Records.{narrow_count as narrow_records, record_count as all_records};

use book::{Book, Engine, Run};
use log_disk::Disk;
use logfile::LogFile;
use std::sync::Wait;
use tables::{narrow_count, record_count};

/// What a call that is refused for want of memory leaves as it was.
#[derive(Clone, Copy, PartialEq, Eq)]
pub(crate) struct Look {
    /// How many have committed.
    commits: u64,
    /// A sum of what all records hold in the committed tables.
    records: u64,
    file: Standing,
}

/// How a file stands: how many entries were appended to it, the last one's number, its mark, and how many calls its disk
/// has done.
#[derive(Clone, Copy, PartialEq, Eq)]
struct Standing {
    count: u64,
    last: u64,
    mark: u64,
    calls: u64,
}

fn standing_of<D: Disk>(file: &LogFile<D>, calls: u64) -> Standing {
    Standing {
        count: file.count(),
        last: file.last(),
        mark: file.mark(),
        calls,
    }
}

/// What stands there, with a file whose disk has done so many calls. Takes no memory.
pub(crate) fn look_at<K: Run, D: Disk, R: Wait>(
    rt: &R,
    engine: &Engine<K>,
    file: &LogFile<D>,
    calls: u64,
) -> Look {
    let mut book = engine.lock(rt);
    let narrow = narrow_sum(engine, &mut book);
    Look {
        records: wide_sum(engine, &mut book, narrow),
        commits: book.commits(),
        file: standing_of(file, calls),
    }
}

/// A sum with these words more.
fn mixed(sum: u64, words: &[u64]) -> u64 {
    words.iter().fold(sum, |so_far, word| {
        so_far.wrapping_mul(31).wrapping_add(*word)
    })
}

/// Of what the narrow records hold.
fn narrow_sum<K: Run>(engine: &Engine<K>, book: &mut Book<K>) -> u64 {
    let mut sum = 0;
    for number in 0..narrow_end(engine) {
        sum = match book.record(engine.cells(), number) {
            Some(words) => mixed(mixed(sum, &[1]), &words),
            None => mixed(sum, &[0]),
        };
    }
    sum
}

/// Of what the wide ones hold too.
fn wide_sum<K: Run>(engine: &Engine<K>, book: &mut Book<K>, narrow: u64) -> u64 {
    let mut sum = narrow;
    for number in narrow_end(engine)..wide_end(engine) {
        sum = match book.record_wide(engine.cells(), number) {
            Some(words) => mixed(sum, &words),
            None => mixed(sum, &[0]),
        };
    }
    sum
}

/// How many records are narrow.
fn narrow_end<K: Run>(engine: &Engine<K>) -> u32
    ensures { result ≡ narrow_records K.run.first.scale }
{
    narrow_count(&engine.population().scale())
}

/// How many there are.
fn wide_end<K: Run>(engine: &Engine<K>) -> u32
    ensures { result ≡ all_records K.run.first.scale }
{
    record_count(&engine.population().scale())
}
