//! A logger whose sync is held until a terminal has gone on, and the terminal's gate.
ghost use Rattle.std.specs.Prelude.{◌≡◌};

use crate::meeting::TURNS;
use log_disk::Disk;
use money::Refusal;
use std::sync::atomic::{AtomicU32, Ordering};
use std::thread;
use terminals::{Calls, Gate};

/// How many commits the terminal is to make beside a sync.
pub(crate) const BESIDE: u32 = 100;

/// What the logger and the terminal tell each other: how many syncs were held, and how many commits were answered.
/// And how often one of them has waited for the other in vain.
#[derive(Default, Drop)]
pub(crate) struct Passing {
    held: AtomicU32,
    answered: AtomicU32,
    in_vain: AtomicU32,
}

impl Passing {
    /// How many syncs were held.
    pub(crate) fn held(&self) -> u32 {
        self.held.load(Ordering::SeqCst)
    }

    /// The next sync is to be held.
    pub(crate) fn ask(&self) {
        self.answered.fetch_add(1, Ordering::SeqCst);
    }

    /// Waits until a sync is held.
    pub(crate) fn wait_for_sync(&self) {
        self.wait(&self.held, 1);
    }

    /// The sync that is held goes on.
    pub(crate) fn release(&self) {
        self.answered.fetch_add(BESIDE, Ordering::SeqCst);
    }

    /// How often one has waited in vain.
    pub(crate) fn in_vain(&self) -> u32 {
        self.in_vain.load(Ordering::SeqCst)
    }

    /// Waits until a word is at least so much.
    fn wait(&self, word: &AtomicU32, least: u32) {
        for _ in 0..TURNS {
            if word.load(Ordering::SeqCst) >= least {
                return;
            }
            thread::yield_now();
        }
        self.in_vain.fetch_add(1, Ordering::SeqCst);
    }

    /// The first sync that begins when the terminal has its first commit is held until so many more were answered.
    fn hold_sync(&self) {
        if self.answered.load(Ordering::SeqCst) == 1 && self.held() == 0 {
            self.held.fetch_add(1, Ordering::SeqCst);
            self.wait(&self.answered, 1 + BESIDE);
        }
    }
}

/// The terminal's gate, which holds it before its second commit until a sync is held.
#[derive(Drop)]
pub(crate) struct Follower<'a> {
    pub(crate) calls: Calls,
    pub(crate) passing: &'a Passing,
}

impl<'a> Gate for Follower<'a> {
    ghost calls = { λ gate. gate.calls };

    fn before_execute(&mut self) {
        self.calls.before_execute();
    }

    fn before_commit(&mut self) {
        if self.calls.committed == 1 {
            self.passing.wait_for_sync();
        }
        self.calls.before_commit();
    }

    fn after_commit(&mut self) {
        self.passing.ask();
        self.calls.after_commit();
    }
}

/// A disk, of which a sync is held.
#[derive(Drop)]
pub(crate) struct Held<'a, D: Disk + Drop> {
    pub(crate) disk: D,
    pub(crate) passing: &'a Passing,
}

impl<D: Disk + Drop> Disk for Held<'_, D> {
    ghost is_modelled = { D.is_modelled };

    ghost seen = { λ disk. D.seen disk.disk };

    ghost story = { λ disk. D.story disk.disk };

    ghost failed = { λ disk. D.failed disk.disk };

    ghost read_gives = { λ disk. D.read_gives disk.disk };

    fn len(&mut self) -> Result<u64, Refusal> {
        self.disk.len()
    }

    fn read_at(&mut self, at: u64, into: &mut [u8]) -> Result<(), Refusal> {
        self.disk.read_at(at, into)
    }

    fn write_at(&mut self, at: u64, bytes: &[u8]) -> Result<(), Refusal> {
        self.disk.write_at(at, bytes)
    }

    fn sync(&mut self) -> Result<(), Refusal> {
        self.passing.hold_sync();
        self.disk.sync()
    }

    fn failures(&self) -> u64 {
        self.disk.failures()
    }
}
