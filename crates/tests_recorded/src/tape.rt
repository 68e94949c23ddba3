//! A disk of a run.

use log_disk::{Disk, Memory};
use money::Refusal;
use std::alloc::{AllocError, Global};
use tests_log_files::disk_of;

/// A disk in memory, and the stamps of its calls.
#[derive(Drop)]
pub struct Tape {
    pub memory: Memory,
    /// How many calls it had before the run.
    pub base: usize,
    /// The stamps of the calls behind these, in order.
    pub stamps: Vec<u64>,
}

impl Tape {
    /// A disk on which nothing has been called.
    pub fn new(alloc: Global) -> Tape {
        Tape {
            memory: Memory::new(alloc),
            base: 0,
            stamps: Vec::new(alloc),
        }
    }

    /// A disk that has these bytes, synced.
    pub fn of(alloc: Global, bytes: &[u8]) -> Result<Tape, Refusal> {
        let mut memory = disk_of(alloc, bytes)?;
        memory.sync()?;
        Ok(Tape {
            base: memory.calls().len(),
            memory,
            stamps: Vec::new(alloc),
        })
    }

    /// How many of its calls have no stamp.
    pub fn unstamped(&self) -> usize {
        let stamped = self.base.saturating_add(self.stamps.len());
        self.memory.calls().len().saturating_sub(stamped)
    }
}
