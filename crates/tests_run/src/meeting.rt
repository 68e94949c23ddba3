//! Where terminals meet: their gates hold each until all have come.
ghost use Rattle.std.specs.Prelude.{◌≡◌};

use std::sync::atomic::{AtomicU32, Ordering};
use std::thread;
use terminals::{Calls, Gate};

/// How often one looks whether what it waits for has come.
pub(crate) const TURNS: u32 = 10_000_000;

/// How many have come to where they meet, and how many have gone on without the others.
#[derive(Default, Drop)]
pub(crate) struct Meeting {
    come: AtomicU32,
    alone: AtomicU32,
}

impl Meeting {
    /// How many have come.
    pub(crate) fn come(&self) -> u32 {
        self.come.load(Ordering::SeqCst)
    }

    /// How many have gone on without the others.
    pub(crate) fn alone(&self) -> u32 {
        self.alone.load(Ordering::SeqCst)
    }

    /// Comes, and waits until so many have, unless one has gone on without the others.
    fn hold(&self, all: u32) {
        self.come.fetch_add(1, Ordering::SeqCst);
        for _ in 0..TURNS {
            if self.come() >= all {
                return;
            }
            if self.alone() > 0 {
                break;
            }
            thread::yield_now();
        }
        self.alone.fetch_add(1, Ordering::SeqCst);
    }
}

/// A terminal's gate, which holds it before its first commit until so many have come to theirs.
#[derive(Drop)]
pub(crate) struct Attendance<'a> {
    pub(crate) calls: Calls,
    pub(crate) meeting: &'a Meeting,
    pub(crate) all: u32,
}

impl<'a> Gate for Attendance<'a> {
    ghost calls = { λ gate. gate.calls };

    fn before_execute(&mut self) {
        self.calls.before_execute();
    }

    fn before_commit(&mut self) {
        if self.calls.commits == 0 {
            self.meeting.hold(self.all);
        }
        self.calls.before_commit();
    }

    fn after_commit(&mut self) {
        self.calls.after_commit();
    }
}
