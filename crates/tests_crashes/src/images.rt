//! What a crash leaves on the disks of a run.

use log_disk::MemoryCall;
use std::alloc::{AllocError, Global};
use tests_disks::{Torn, leave};
use tests_recorded::Tape;

/// What stands on a disk at a stamp.
#[derive(Drop)]
pub(crate) struct Image {
    /// The bytes that the last sync has found.
    bytes: Vec<u8>,
    /// How many calls these are of, and how many were done.
    synced: usize,
    done: usize,
}

impl Image {
    /// What stood there before the run.
    pub(crate) fn new(alloc: Global, tape: &Tape) -> Result<Image, AllocError> {
        let mut image = Image {
            bytes: Vec::new(alloc),
            synced: 0,
            done: 0,
        };
        for _ in 0..tape.base {
            image.next(tape)?;
        }
        Ok(image)
    }

    /// Goes on to this stamp.
    pub(crate) fn advance(&mut self, tape: &Tape, stamp: u64) -> Result<(), AllocError> {
        let before = self.done.saturating_sub(tape.base);
        let stamps = tape.stamps.iter().skip(before);
        let count = stamps.take_while(|own| **own <= stamp).count();
        for _ in 0..count {
            self.next(tape)?;
        }
        Ok(())
    }

    /// Takes up the next call.
    fn next(&mut self, tape: &Tape) -> Result<(), AllocError> {
        self.done = self.done.saturating_add(1);
        let calls = tape.memory.calls();
        let last = calls.get(self.done.saturating_sub(1));
        if matches!(last, Some(MemoryCall::Sync)) {
            put(&mut self.bytes, calls, self.synced, self.done, Torn::New)?;
            self.synced = self.done;
        }
        Ok(())
    }

    /// Whether its log file is whole: a new one's header is written and synced by two calls.
    pub(crate) fn is_made(&self) -> bool {
        self.synced >= 2
    }

    /// Whether calls were done since the last sync.
    pub(crate) fn is_open(&self) -> bool {
        self.synced < self.done
    }

    /// The bytes that a crash leaves, by which the writes since the last sync are torn so.
    pub(crate) fn left(
        &self,
        alloc: Global,
        tape: &Tape,
        torn: Torn,
    ) -> Result<Vec<u8>, AllocError> {
        let mut bytes = Vec::new(alloc);
        bytes.extend_from_slice(&self.bytes)?;
        put(
            &mut bytes,
            tape.memory.calls(),
            self.synced,
            self.done,
            torn,
        )?;
        Ok(bytes)
    }
}

/// Puts the calls from one place to another on bytes, torn so.
fn put(
    bytes: &mut Vec<u8>,
    calls: &[MemoryCall],
    from: usize,
    to: usize,
    torn: Torn,
) -> Result<(), AllocError> {
    for call in calls.iter().take(to).skip(from) {
        leave(bytes, call, torn)?;
    }
    Ok(())
}
