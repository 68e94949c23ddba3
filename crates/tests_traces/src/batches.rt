//! The batches that stand in the calls of a disk.

use book::Entry;
use byteorder::{ByteOrder, LittleEndian};
use log_codec::u64_at;
use log_disk::MemoryCall;
use std::alloc::{AllocError, Global};
use std::sync::Arc;

/// A batch, by its mark, and by how many entries of its logger's stream have come into the file with it.
#[derive(Clone, Copy, Debug, PartialEq, Eq)]
pub(crate) struct Batch {
    pub(crate) mark: u64,
    pub(crate) until: usize,
}

/// How many calls append a batch: the first of them writes its text.
pub(crate) const CALLS: usize = 4;

/// The batches of a logger, by the calls of its disk from one on.
pub(crate) fn batches(
    alloc: Global,
    calls: &[MemoryCall],
    first: usize,
    stream: &[Arc<Entry, Global>],
) -> Result<Vec<Batch>, AllocError> {
    let mut all = Vec::new(alloc);
    let mut until = 0usize;
    for call in calls.iter().skip(first).step_by(CALLS) {
        if let MemoryCall::Write { bytes, .. } = call {
            until = until.saturating_add(entries_in(bytes, stream, until));
            all.push(Batch {
                mark: mark_of(bytes),
                until,
            })?;
        }
    }
    Ok(all)
}

/// The mark of a body's text, which stands behind its length.
fn mark_of(text: &[u8]) -> u64 {
    match text.get(8..) {
        Some(rest) => u64_at(rest).map_or(0, |found| found.0),
        None => 0,
    }
}

/// How many entries of a stream, from this one on, stand in a text.
fn entries_in(text: &[u8], stream: &[Arc<Entry, Global>], first: usize) -> usize {
    let rest = stream.iter().skip(first);
    rest.take_while(|entry| stands_in(text, entry)).count()
}

/// Whether an entry stands in a text, by its number and its TID.
fn stands_in(text: &[u8], entry: &Entry) -> bool {
    let mut front = [0; 16];
    LittleEndian::write_u64(&mut front[..8], u64::from(entry.number));
    LittleEndian::write_u64(&mut front[8..], entry.tid.word());
    text.windows(16).any(|part| part == &front[..])
}
