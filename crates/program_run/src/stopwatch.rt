//! Taking the time of a terminal's commits.

use crate::waits::Waits;
use book::Done;
use std::alloc::Global;
use std::collections::VecDeque;
use std::time::{Clock, Duration};
use terminals::{Calls, Gate};

/// A terminal's gate, which holds nobody. Where waits are told, it takes the time of each commit, and of its
/// acknowledgement.
#[derive(Drop)]
pub struct Stopwatch<'a, C: Clock> {
    calls: Calls,
    clock: &'a C,
    waits: Option<&'a Waits>,
    /// When the commits whose replies wait have committed, in order; nothing, once one couldn't be noted.
    begun: Option<VecDeque<Duration>>,
}

impl<'a, C: Clock> Stopwatch<'a, C> {
    /// A gate that tells what a terminal's commits wait, by this clock, if that is to be told.
    pub fn new(alloc: Global, clock: &'a C, waits: Option<&'a Waits>) -> Stopwatch<'a, C> {
        Stopwatch {
            calls: Calls::default(),
            clock,
            waits,
            begun: Some(VecDeque::new(alloc)),
        }
    }
}

/// Notes that a commit was made now, if the time is known and there is memory.
fn begin<C: Clock>(clock: &C, begun: &mut VecDeque<Duration>) -> bool {
    match clock.monotonic() {
        Ok(now) => begun.push_back(now).is_ok(),
        Err(_) => false,
    }
}

/// Notes that the oldest commit that waits has waited until now.
fn end(waits: &Waits, now: Duration, begun: &mut VecDeque<Duration>) {
    if let Some(then) = begun.pop_front() {
        waits.note(now.saturating_sub(then));
    }
}

impl<'a, C: Clock> Gate for Stopwatch<'a, C> {
    ghost calls = { λ watch. watch.calls };

    fn before_execute(&mut self) {
        self.calls.before_execute();
    }

    fn before_commit(&mut self) {
        self.calls.before_commit();
    }

    fn after_commit(&mut self) {
        self.calls.after_commit();
        if self.waits.is_none() {
            return;
        }
        let is_noted = match &mut self.begun {
            Some(begun) => begin(self.clock, begun),
            None => true,
        };
        if !is_noted {
            self.begun = None;
        }
    }

    fn released(&mut self, replies: &[Done]) {
        let Some(waits) = self.waits else {
            return;
        };
        if replies.is_empty() {
            return;
        }
        for done in replies {
            waits.count(done.reply());
        }
        let (Some(begun), Ok(now)) = (&mut self.begun, self.clock.monotonic()) else {
            return;
        };
        for _ in replies {
            end(waits, now, begun);
        }
    }
}
