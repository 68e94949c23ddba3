//! How a run is looked at while it lasts.

use run_threads::{Pace, RunProgress};
use std::sync::Wait;
use std::sync::atomic::{AtomicU64, Ordering};
use std::thread;
use std::time::{Clock, Duration};

/// How far apart the looks of a pause are, in microseconds.
const SLICE: u64 = 1_000;

/// The shortest pause, in which a look can tell what the turn before it has acknowledged. In microseconds.
const LEAST: u64 = 200;

/// How far apart the turns of another logger than the first begin at the most, in milliseconds.
const LONGEST: u64 = 100;

/// What was seen of a run, from the first look at it to the last before its terminals were done.
#[derive(Clone, Copy)]
pub(crate) struct Seen {
    /// Microseconds between the two looks.
    pub(crate) micros: u64,
    /// Commits between them.
    pub(crate) commits: u64,
    /// The microseconds that commits waited between them, all in all, for their acknowledgement.
    pub(crate) waited: u64,
}

impl Seen {
    /// Commits a second.
    pub(crate) fn speed(&self) -> u64 {
        self.commits.saturating_mul(1_000_000) / self.micros.max(1)
    }

    /// Microseconds from a commit to its acknowledgement, on average.
    pub(crate) fn latency(&self) -> u64 {
        self.waited / self.commits.max(1)
    }
}

/// Where a gauge leaves what it has seen.
#[derive(Drop)]
pub(crate) struct Dial {
    micros: AtomicU64,
    commits: AtomicU64,
    waited: AtomicU64,
}

impl Dial {
    pub(crate) fn new() -> Dial {
        Dial {
            micros: AtomicU64::new(0),
            commits: AtomicU64::new(0),
            waited: AtomicU64::new(0),
        }
    }

    pub(crate) fn seen(&self) -> Seen {
        Seen {
            micros: self.micros.load(Ordering::SeqCst),
            commits: self.commits.load(Ordering::SeqCst),
            waited: self.waited.load(Ordering::SeqCst),
        }
    }

    fn set(&self, seen: Seen) {
        self.micros.store(seen.micros, Ordering::SeqCst);
        self.commits.store(seen.commits, Ordering::SeqCst);
        self.waited.store(seen.waited, Ordering::SeqCst);
    }
}

/// A look at a run.
#[derive(Clone, Copy)]
struct Look {
    at: Duration,
    commits: u64,
    waiting: u64,
}

/// The first logger's turns begin an interval apart, or at once where one takes longer; others' follow it. In between,
/// the first looks at the run each millisecond: the sum of how many commits waited, each look's times the time until
/// the next, is what all of them waited.
#[derive(Drop)]
pub(crate) struct Gauge<'a, C: Clock + Wait> {
    clock: &'a C,
    interval: Duration,
    due: Duration,
    dial: Option<&'a Dial>,
    looks: Option<(Look, Look)>,
    waited: u64,
}

impl<'a, C: Clock + Wait> Gauge<'a, C> {
    pub(crate) fn new(clock: &'a C, interval: Duration, dial: Option<&'a Dial>) -> Gauge<'a, C> {
        Gauge {
            clock,
            interval,
            due: Duration::ZERO,
            dial,
            looks: None,
            waited: 0,
        }
    }

    fn look(&mut self, at: Duration, progress: &RunProgress) {
        let Some(dial) = self.dial else { return };
        if progress.has_ended() {
            return;
        }
        let commits = progress.commits();
        let now = Look {
            at,
            commits,
            waiting: commits.saturating_sub(progress.acknowledged()),
        };
        let Some((first, last)) = self.looks else {
            self.looks = Some((now, now));
            return;
        };
        let area = micros(last.at, now.at).saturating_mul(mean(last.waiting, now.waiting));
        self.waited = self.waited.saturating_add(area);
        self.looks = Some((first, now));
        dial.set(Seen {
            micros: micros(first.at, now.at),
            commits: now.commits.saturating_sub(first.commits),
            waited: self.waited,
        });
    }
}

fn mean(one: u64, other: u64) -> u64 {
    one.saturating_add(other) / 2
}

fn micros(from: Duration, to: Duration) -> u64 {
    u64::try_from(to.saturating_sub(from).as_micros()).unwrap_or(u64::MAX)
}

impl<'a, C: Clock + Wait> Pace for Gauge<'a, C> {
    fn pause(&mut self, progress: &RunProgress, signals: u64) {
        if self.dial.is_none() {
            progress.wait(self.clock, signals, Duration::from_millis(LONGEST));
            return;
        }
        let Ok(begun) = self.clock.monotonic() else {
            thread::sleep(self.clock, self.interval);
            return;
        };
        let left = self.due.saturating_sub(begun).min(self.interval);
        let end = begun.saturating_add(left.max(Duration::from_micros(LEAST)));
        self.due = self.due.max(begun).saturating_add(self.interval);
        self.look(begun, progress);
        for _ in 0..=left.as_millis() {
            let Ok(now) = self.clock.monotonic() else {
                return;
            };
            let slice = end.saturating_sub(now).min(Duration::from_micros(SLICE));
            thread::sleep(self.clock, slice);
            if let Ok(now) = self.clock.monotonic() {
                self.look(now, progress);
            }
        }
    }
}
