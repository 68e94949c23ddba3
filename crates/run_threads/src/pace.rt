//! When loggers take their turns.

use crate::progress::RunProgress;
use std::thread;

/// How a logger waits between two turns. The first logger's is also who may tell how far the run is.
pub trait Pace {
    /// Called after each turn of the logger while the run lasts, outside the book's lock. `signals` is how many there
    /// were before the turn took of the book: `progress.wait` with it sleeps through no advance of E that the turn
    /// hasn't seen.
    fn pause(&mut self, progress: &RunProgress, signals: u64);

    /// Called once, after all loggers' last turns, and after the terminals have acknowledged what is durable then.
    fn end(&mut self, _progress: &RunProgress) {}
}

/// What a logger works on, and how it waits between its turns: a disk, a log file that is open, or a logger of a run.
#[derive(Drop)]
pub struct Paced<T, P: Pace> {
    pub inner: T,
    pub pace: P,
}

/// A turn follows on the one before at once.
#[derive(Clone, Copy, Debug, Drop)]
pub struct AtOnce;

impl Pace for AtOnce {
    fn pause(&mut self, _progress: &RunProgress, _signals: u64) {
        thread::yield_now();
    }
}
