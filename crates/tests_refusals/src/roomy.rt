//! A disk whose room is taken as it is made.
ghost use Rattle.std.specs.Prelude.{◌≡◌, ◌+◌, ◌≤◌, [], length, IsTrue, IfSome, OnOk};
ghost use Rattle.log_disk.specs.Calls.{Counts};
ghost use Rattle.tests_refusals.specs.declared.roomy.TheConstants.{ROOM};

use log_disk::Disk;
use money::Refusal;
use std::alloc::{AllocError, Global};
use std::sync::atomic::{AtomicU64, Ordering};

/// The room.
const ROOM: usize = 1 << 14;

/// A disk in memory that has room for 16,384 bytes, and takes no more once it is made: a write fails where there is
/// none left. Nobody reads it by a call. Its writes and syncs are counted.
#[derive(Drop)]
pub(crate) struct Roomy<'a> {
    room: Vec<u8>,
    length: usize,
    failures: u64,
    calls: &'a AtomicU64,
}

impl<'a> Roomy<'a> {
    /// An empty one.
    pub(crate) fn new(alloc: Global, calls: &'a AtomicU64) -> Result<Roomy<'a>, AllocError> {
        Ok(Roomy {
            room: vec![in alloc; 0u8; ROOM]?,
            length: 0,
            failures: 0,
            calls,
        })
    }
}

impl Roomy<'_> {
    /// Its bytes.
    pub(crate) fn bytes(&self) -> &[u8] {
        self.room.get(..self.length).unwrap_or(&[])
    }

    /// The answer of a call that is done or not.
    fn answer(&mut self, is_done: bool) -> Result<(), Refusal>
        ensures done { OnOk result (IsTrue is_done) }
        ensures cause { Counts result self.old.failures self.new.failures }
    {
        if is_done && self.failures < u64::MAX {
            return Ok(());
        }
        self.failures = self.failures.saturating_add(1);
        Err(Refusal::Device)
    }
}

/// Copies bytes to a place, and answers where they end, if they fit there.
fn put(room: &mut [u8], at: u64, bytes: &[u8]) -> Option<usize>
    ensures { IfSome result (λ end. (end ≡ at + length bytes.now) × (end ≤ ROOM)) }
{
    let at = at as usize;
    let end = at.checked_add(bytes.len())?;
    if end > ROOM.min(room.len()) {
        return None;
    }
    room[at..end].copy_from_slice(bytes);
    Some(end)
}

/// Says nothing of its bytes.
impl Disk for Roomy<'_> {
    ghost is_modelled = { ⊥ };

    ghost seen = { λ disk. [] };

    ghost story = { λ disk. [] };

    ghost failed = { λ disk. disk.failures };

    ghost read_gives = { λ disk never. absurd never };

    fn len(&mut self) -> Result<u64, Refusal> {
        self.answer(true)?;
        Ok(self.length as u64)
    }

    fn read_at(&mut self, _at: u64, _into: &mut [u8]) -> Result<(), Refusal> {
        self.answer(false)
    }

    fn write_at(&mut self, at: u64, bytes: &[u8]) -> Result<(), Refusal> {
        self.calls.fetch_add(1, Ordering::SeqCst);
        let end = put(&mut self.room, at, bytes);
        self.answer(end.is_some())?;
        self.length = self.length.max(end.unwrap_or(0));
        Ok(())
    }

    fn sync(&mut self) -> Result<(), Refusal> {
        self.calls.fetch_add(1, Ordering::SeqCst);
        self.answer(true)
    }

    fn failures(&self) -> u64 {
        self.failures
    }
}
