//! A terminal that another overtakes at each try of an input, so that it gives that one up.
ghost use Rattle.std.specs.Prelude.{◌≡◌};

use crate::meeting::TURNS;
use std::sync::atomic::{AtomicU32, Ordering};
use std::thread;
use terminals::{Calls, Gate, TRIES};

/// How many commits the fast terminal makes beside each of the other's tries. Not all of them write the district's
/// row, but one in so many does.
const BESIDE: u32 = 5;

/// What the two tell each other: how often the slow one has executed an input, and how often the fast one has
/// committed. And how often one of them has waited for the other in vain.
#[derive(Default, Drop)]
pub(crate) struct Overtaking {
    executed: AtomicU32,
    committed: AtomicU32,
    in_vain: AtomicU32,
}

impl Overtaking {
    /// How often one has waited in vain.
    pub(crate) fn in_vain(&self) -> u32 {
        self.in_vain.load(Ordering::SeqCst)
    }

    /// The slow one has executed its input, and waits until others have committed: at its first 64 tries.
    fn give_way(&self) {
        let tries = self.executed.fetch_add(1, Ordering::SeqCst).min(TRIES - 1);
        self.wait(&self.committed, (tries + 1) * BESIDE);
    }

    /// The fast one waits until the other has executed its input once more, as long as that tries its first one.
    fn follow(&self) {
        let tries = self.committed.load(Ordering::SeqCst) / BESIDE;
        self.wait(&self.executed, tries.min(TRIES - 1) + 1);
    }

    /// The fast one has committed.
    fn pass(&self) {
        self.committed.fetch_add(1, Ordering::SeqCst);
    }

    /// Waits until a word is at least so much.
    fn wait(&self, word: &AtomicU32, least: u32) {
        for _ in 0..TURNS {
            if word.load(Ordering::SeqCst) >= least {
                return;
            }
            thread::yield_now();
        }
        self.in_vain.fetch_add(1, Ordering::SeqCst);
    }
}

/// The gate of one of the two.
#[derive(Drop)]
pub(crate) struct Lane<'a> {
    pub(crate) calls: Calls,
    pub(crate) overtaking: &'a Overtaking,
    pub(crate) is_fast: bool,
}

impl<'a> Gate for Lane<'a> {
    ghost calls = { λ gate. gate.calls };

    fn before_execute(&mut self) {
        self.calls.before_execute();
    }

    fn before_commit(&mut self) {
        if self.is_fast {
            self.overtaking.follow();
        } else {
            self.overtaking.give_way();
        }
        self.calls.before_commit();
    }

    fn after_commit(&mut self) {
        if self.is_fast {
            self.overtaking.pass();
        }
        self.calls.after_commit();
    }
}
