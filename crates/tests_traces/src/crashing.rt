//! What stood on a life's disks at a stamp: what a crash leaves, and where their log files ended.

use log_disk::MemoryCall;
use log_text::read_to_end;
use money::Refusal;
use std::alloc::{AllocError, Global};
use tests_disks::{Torn, leave};
use tests_recorded::Tape;
use traces::Start;

/// The bytes of these calls, all done.
fn bytes_of(alloc: Global, calls: &[MemoryCall]) -> Result<Vec<u8>, AllocError> {
    let mut bytes = Vec::new(alloc);
    for call in calls {
        leave(&mut bytes, call, Torn::New)?;
    }
    Ok(bytes)
}

/// The calls of a disk that were done at a stamp.
fn calls_at(tape: &Tape, stamp: u64) -> &[MemoryCall] {
    let stamped = tape.stamps.iter().take_while(|own| **own <= stamp);
    let calls = tape.memory.calls();
    let done = tape.base.saturating_add(stamped.count());
    calls.get(..done).unwrap_or(calls)
}

/// Where a disk's log file stood at a stamp, and its last mark: by its bytes then, whatever was written behind.
pub(crate) fn standing_at(alloc: Global, tape: &Tape, stamp: u64) -> Result<(Start, u64), Refusal> {
    let calls = calls_at(tape, stamp);
    let bytes = bytes_of(alloc, calls)?;
    let (_, _, last, end) = read_to_end(alloc, &bytes)?;
    let start = Start {
        calls: calls.len(),
        end: end as u64,
    };
    Ok((start, last.mark))
}

/// The disks with what a crash at this stamp leaves: all calls that were done by then.
pub(crate) fn crashed_at(alloc: Global, tapes: &[Tape], stamp: u64) -> Result<Vec<Tape>, Refusal> {
    let mut left = Vec::new(alloc);
    for tape in tapes {
        let bytes = bytes_of(alloc, calls_at(tape, stamp))?;
        left.push(Tape::of(alloc, &bytes)?)?;
    }
    Ok(left)
}
