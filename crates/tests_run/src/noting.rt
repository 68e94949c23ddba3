//! Loggers that note when they end.
ghost use Rattle.std.specs.Prelude.{◌≡◌, []};

use log_disk::{Disk, Memory};
use run_threads::{Pace, RunProgress};
use std::alloc::Global;
use std::sync::atomic::{AtomicU64, Ordering};
use std::thread;

/// When a logger has ended: after how many others, and E then.
#[derive(Default, Drop)]
pub(crate) struct Note {
    after: AtomicU64,
    epoch: AtomicU64,
}

impl Note {
    /// After how many others it has ended, and E then.
    pub(crate) fn read(&self) -> (u64, u64) {
        (
            self.after.load(Ordering::SeqCst),
            self.epoch.load(Ordering::SeqCst),
        )
    }
}

/// How many of two loggers have ended, and when each has.
#[derive(Default, Drop)]
pub(crate) struct Notes {
    ended: AtomicU64,
    pub(crate) first: Note,
    pub(crate) second: Note,
}

/// Notes it as its logger ends. A turn follows on the one before at once.
#[derive(Drop)]
pub(crate) struct Noting<'a> {
    ended: &'a AtomicU64,
    note: &'a Note,
}

impl<'a> Pace for Noting<'a> {
    fn pause(&mut self, _progress: &RunProgress, _signals: u64) {
        thread::yield_now();
    }

    fn end(&mut self, progress: &RunProgress) {
        let after = self.ended.fetch_add(1, Ordering::SeqCst);
        self.note.after.store(after, Ordering::SeqCst);
        self.note.epoch.store(progress.epoch(), Ordering::SeqCst);
    }
}

/// The disks of two loggers that note when they end.
pub(crate) fn noted<'a>(
    alloc: Global,
    notes: &'a Notes,
) -> ((Memory, Noting<'a>), (Memory, Noting<'a>))
    ensures first { (⟦<Memory as Disk>⟧.seen result.0.0 ≡ []) × (⟦<Memory as Disk>⟧.story result.0.0 ≡ []) }
    ensures second { (⟦<Memory as Disk>⟧.seen result.1.0 ≡ []) × (⟦<Memory as Disk>⟧.story result.1.0 ≡ []) }
{
    let first = Noting {
        ended: &notes.ended,
        note: &notes.first,
    };
    let second = Noting {
        ended: &notes.ended,
        note: &notes.second,
    };
    ((Memory::new(alloc), first), (Memory::new(alloc), second))
}
