//! How far a run is.

use std::sync::Wait;
use std::sync::atomic::{AtomicBool, AtomicU64, Ordering};
use std::time::Duration;

/// How far a run is, as its threads tell it: each number is one that was so, and none need be of the same moment as
/// another.
#[derive(Drop)]
pub struct RunProgress {
    inputs: AtomicU64,
    commits: AtomicU64,
    acknowledged: AtomicU64,
    epoch: AtomicU64,
    durable: AtomicU64,
    has_ended: AtomicBool,
    /// How often E was advanced, or the run has ended. Loggers sleep on it.
    signals: AtomicU64,
}

impl RunProgress {
    /// Of a run that begins, on a board at epoch 1.
    pub(crate) fn new() -> RunProgress {
        RunProgress {
            inputs: AtomicU64::new(0),
            commits: AtomicU64::new(0),
            acknowledged: AtomicU64::new(0),
            epoch: AtomicU64::new(1),
            durable: AtomicU64::new(0),
            has_ended: AtomicBool::new(false),
            signals: AtomicU64::new(0),
        }
    }

    /// How many inputs the terminals have done.
    pub fn inputs(&self) -> u64 {
        self.inputs.load(Ordering::SeqCst)
    }

    /// How many transactions have committed.
    pub fn commits(&self) -> u64 {
        self.commits.load(Ordering::SeqCst)
    }

    /// How many replies were released.
    pub fn acknowledged(&self) -> u64 {
        self.acknowledged.load(Ordering::SeqCst)
    }

    /// E.
    pub fn epoch(&self) -> u64 {
        self.epoch.load(Ordering::SeqCst)
    }

    /// D.
    pub fn durable(&self) -> u64 {
        self.durable.load(Ordering::SeqCst)
    }

    /// Whether all terminals have done their inputs.
    pub fn has_ended(&self) -> bool {
        self.has_ended.load(Ordering::SeqCst)
    }

    /// Sleeps until E is advanced or the run ends, unless either has come since there were so many signals, and for so
    /// long at most. It may also return for no reason.
    pub fn wait<R: Wait>(&self, rt: &R, signals: u64, longest: Duration) {
        if !self.has_ended() {
            let seen = (signals & 0xffff_ffff) as u32;
            self.signals.park_timeout(rt, seen, longest);
        }
    }

    /// How many signals there were: one behind each advance of E, and one at the end.
    pub fn signals(&self) -> u64 {
        self.signals.load(Ordering::SeqCst)
    }

    /// Wakes all that wait.
    fn signal(&self) {
        self.signals.fetch_add(1, Ordering::SeqCst);
        self.signals.wake_all();
    }

    /// A terminal has done an input, and then released so many replies.
    pub(crate) fn note_input(&self, is_commit: bool, acknowledged: u64) {
        self.inputs.fetch_add(1, Ordering::SeqCst);
        if is_commit {
            self.commits.fetch_add(1, Ordering::SeqCst);
        }
        if acknowledged > 0 {
            self.acknowledged.fetch_add(acknowledged, Ordering::SeqCst);
        }
    }

    /// So many replies were released in all.
    pub(crate) fn note_acknowledged(&self, acknowledged: u64) {
        self.acknowledged.fetch_max(acknowledged, Ordering::SeqCst);
    }

    /// The clock has advanced E, which all that wait for it hear.
    pub(crate) fn note_epoch(&self, epoch: u64) {
        self.epoch.store(epoch, Ordering::SeqCst);
        self.signal();
    }

    /// A logger has found D to be at least this.
    pub(crate) fn note_durable(&self, durable: u64) {
        self.durable.fetch_max(durable, Ordering::SeqCst);
    }

    /// All terminals have done their inputs, which all that wait hear.
    pub(crate) fn end(&self) {
        self.has_ended.store(true, Ordering::SeqCst);
        self.signal();
    }
}
