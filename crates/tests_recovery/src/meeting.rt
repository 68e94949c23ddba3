//! Two disks whose first reads wait for each other.

use log_disk::Disk;
use money::Refusal;
use std::sync::atomic::{AtomicBool, AtomicU32, Ordering};
use std::thread;

/// How often a read looks whether the other disk was asked, at most.
const TURNS: u32 = 10_000_000;

/// Which of two disks was asked for bytes, and how often one has waited for the other in vain.
#[derive(Default, Drop)]
pub(crate) struct Meeting {
    first: AtomicBool,
    second: AtomicBool,
    in_vain: AtomicU32,
}

impl Meeting {
    /// How often a disk has waited in vain.
    pub(crate) fn in_vain(&self) -> u32 {
        self.in_vain.load(Ordering::SeqCst)
    }

    /// Says that a disk is asked, and waits until the other one was.
    fn meet(&self, is_first: bool) {
        let (own, other) = if is_first {
            (&self.first, &self.second)
        } else {
            (&self.second, &self.first)
        };
        own.store(true, Ordering::SeqCst);
        for _ in 0..TURNS {
            if other.load(Ordering::SeqCst) {
                return;
            }
            thread::yield_now();
        }
        self.in_vain.fetch_add(1, Ordering::SeqCst);
    }
}

/// One of them.
#[derive(Drop)]
pub(crate) struct Met<'a, D: Disk + Drop> {
    pub(crate) disk: D,
    pub(crate) is_first: bool,
    pub(crate) meeting: &'a Meeting,
}

impl<D: Disk + Drop> Disk for Met<'_, D> {
    ghost is_modelled = { D.is_modelled };

    ghost seen = { λ disk. D.seen disk.disk };

    ghost story = { λ disk. D.story disk.disk };

    ghost failed = { λ disk. D.failed disk.disk };

    ghost read_gives = { λ disk. D.read_gives disk.disk };

    fn len(&mut self) -> Result<u64, Refusal> {
        self.disk.len()
    }

    fn read_at(&mut self, at: u64, into: &mut [u8]) -> Result<(), Refusal> {
        self.meeting.meet(self.is_first);
        self.disk.read_at(at, into)
    }

    fn write_at(&mut self, at: u64, bytes: &[u8]) -> Result<(), Refusal> {
        self.disk.write_at(at, bytes)
    }

    fn sync(&mut self) -> Result<(), Refusal> {
        self.disk.sync()
    }

    fn failures(&self) -> u64 {
        self.disk.failures()
    }
}
