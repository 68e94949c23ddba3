//! Two loggers, of which the second follows the clock, and a terminal that is held while they go round by round.
ghost use Rattle.std.specs.Prelude.{◌≡◌, length, All, IfOk};

use crate::held::Passing;
use crate::meeting::TURNS;
use money::Refusal;
use run_threads::{Pace, RunProgress, Station};
use std::alloc::Global;
use std::sync::Wait;
use std::sync::atomic::{AtomicU64, Ordering};
use std::thread;
use std::time::{Clock, Duration};
use tables::Scale;
use terminals::{Calls, Gate};
use terminals_deck::{Deck, Settings};

/// How often the clock advances E before the terminal commits.
pub(crate) const ROUNDS: u64 = 200;

/// The round in which a sync of the follower is held, until E was advanced once more.
const HELD: u64 = 101;

/// How long a logger sleeps at the most, in seconds: far longer than a round takes.
const LONGEST: u64 = 20;

/// How many rounds are over, how many turns of the follower came behind an advance of E, and behind how many signals
/// its last turn came. And how often somebody has waited in vain: then all go on.
#[derive(Default, Drop)]
pub(crate) struct Rounds {
    over: AtomicU64,
    followed: AtomicU64,
    last: AtomicU64,
    in_vain: AtomicU64,
}

impl Rounds {
    /// How many turns of the follower came behind an advance of E.
    pub(crate) fn followed(&self) -> u64 {
        self.followed.load(Ordering::SeqCst)
    }

    /// How often somebody has waited in vain.
    pub(crate) fn in_vain(&self) -> u64 {
        self.in_vain.load(Ordering::SeqCst)
    }

    fn note_in_vain(&self) {
        self.in_vain.fetch_add(1, Ordering::SeqCst);
    }

    /// The clock's logger ends a round once the follower's turn behind it is over, and all epochs before E are durable.
    fn settle(&self, progress: &RunProgress, signals: u64) {
        for _ in 0..TURNS {
            let is_followed = self.last.load(Ordering::SeqCst) == signals;
            if is_followed && progress.durable().saturating_add(1) >= progress.epoch() {
                return;
            }
            if self.in_vain() > 0 {
                return;
            }
            thread::yield_now();
        }
        self.note_in_vain();
    }

    /// The terminal waits for the last round.
    fn wait_for_all(&self) {
        for _ in 0..TURNS {
            if self.over.load(Ordering::SeqCst) >= ROUNDS || self.in_vain() > 0 {
                return;
            }
            thread::yield_now();
        }
        self.note_in_vain();
    }
}

/// Waits for a signal.
fn sleep<R: Wait + Clock>(rt: &R, rounds: &Rounds, progress: &RunProgress, signals: u64) {
    let longest = Duration::from_secs(LONGEST);
    let begun = rt.monotonic();
    progress.wait(rt, signals, longest);
    if let (Ok(begun), Ok(ended)) = (begun, rt.monotonic()) {
        if ended.saturating_sub(begun) >= longest {
            rounds.note_in_vain();
        }
    }
}

/// Looks for a signal, so that a turn begins in the moment in which it comes.
fn look(rounds: &Rounds, progress: &RunProgress, signals: u64) {
    for _ in 0..TURNS {
        if progress.signals() != signals || rounds.in_vain() > 0 {
            return;
        }
        thread::yield_now();
    }
    rounds.note_in_vain();
}

/// The pace of one of the two loggers.
#[derive(Drop)]
pub(crate) struct Round<'a, R: Wait + Clock> {
    pub(crate) rt: &'a R,
    pub(crate) rounds: &'a Rounds,
    pub(crate) passing: &'a Passing,
    pub(crate) has_clock: bool,
}

impl<'a, R: Wait + Clock> Round<'a, R> {
    /// The first logger ends a round. Behind the last it waits for the end of the run.
    fn lead(&self, progress: &RunProgress, signals: u64) {
        if signals == HELD {
            self.passing.wait_for_sync();
        } else {
            if signals == HELD + 1 {
                self.passing.release();
            }
            self.rounds.settle(progress, signals);
        }
        if signals == HELD - 1 {
            self.passing.ask();
        }
        self.rounds.over.store(signals, Ordering::SeqCst);
        if signals >= ROUNDS {
            sleep(self.rt, self.rounds, progress, signals);
        }
    }

    /// The follower has ended a turn. It sleeps before the one, and looks before the other.
    fn follow(&self, progress: &RunProgress, signals: u64) {
        if signals > 0 {
            self.rounds.followed.fetch_add(1, Ordering::SeqCst);
        }
        self.rounds.last.store(signals, Ordering::SeqCst);
        if signals % 2 == 1 && signals < ROUNDS {
            look(self.rounds, progress, signals);
        } else {
            sleep(self.rt, self.rounds, progress, signals);
        }
    }
}

impl<'a, R: Wait + Clock> Pace for Round<'a, R> {
    fn pause(&mut self, progress: &RunProgress, signals: u64) {
        if self.has_clock {
            self.lead(progress, signals);
        } else {
            self.follow(progress, signals);
        }
    }
}

/// The terminal's gate, which holds it before its commit until all rounds are over.
#[derive(Drop)]
pub(crate) struct Late<'a> {
    calls: Calls,
    rounds: &'a Rounds,
}

impl<'a> Gate for Late<'a> {
    ghost calls = { λ gate. gate.calls };

    fn before_execute(&mut self) {
        self.calls.before_execute();
    }

    fn before_commit(&mut self) {
        self.rounds.wait_for_all();
        self.calls.before_commit();
    }

    fn after_commit(&mut self) {
        self.calls.after_commit();
    }
}

/// The terminal's station.
pub(crate) fn late_station<'a>(
    alloc: Global,
    scale: Scale,
    rounds: &'a Rounds,
) -> Result<Vec<Station<Late<'a>>>, Refusal>
    ensures count { IfOk result (λ stations. length stations.items ≡ 1) }
    ensures decks { IfOk result (λ stations. All (λ station. station.deck.scale ≡ scale) stations.items) }
{
    let mut stations = Vec::new(alloc);
    stations.push(Station {
        deck: Deck::new(scale, Settings::usual(), 1, 0),
        gate: Late {
            calls: Calls::default(),
            rounds,
        },
    })?;
    Ok(stations)
}
