//! What is noted of a run while it goes, in words that its threads share.

use book::Done;
use std::alloc::{AllocError, Global};
use std::sync::atomic::{AtomicU64, Ordering};
use std::thread;
use tables::Reply;

/// How often one looks whether what it waits for has come.
const TURNS: u32 = 1_000_000;

/// How often a sync looks whether the terminals have asked. Where they have ended, it looks in vain.
const LOOKS: u32 = 20_000;

/// The stamp of a commit whose reply was not released, though the commit is known.
const NEVER: u64 = u64::MAX;

/// A commit, as its reply's release tells it.
#[derive(Clone, Copy, Debug, PartialEq, Eq)]
pub struct Fact {
    /// The commit number.
    pub number: u64,
    /// When its reply was released: at this stamp or before.
    pub stamp: u64,
    pub epoch: u64,
    /// How many rows it adds to HISTORY, and how many to ORDER.
    pub payments: u64,
    pub orders: u64,
}

/// The same, in words. The stamp is 0 as long as nothing is known.
#[derive(Default, Drop)]
struct Note {
    stamp: AtomicU64,
    epoch: AtomicU64,
    payments: AtomicU64,
    orders: AtomicU64,
}

impl Note {
    fn store(&self, fact: Fact) {
        self.epoch.store(fact.epoch, Ordering::SeqCst);
        self.payments.store(fact.payments, Ordering::SeqCst);
        self.orders.store(fact.orders, Ordering::SeqCst);
        self.stamp.store(fact.stamp, Ordering::SeqCst);
    }

    fn load(&self, number: usize) -> Option<Fact> {
        let stamp = self.stamp.load(Ordering::SeqCst);
        (stamp > 0).then_some(Fact {
            number: number as u64,
            stamp,
            epoch: self.epoch.load(Ordering::SeqCst),
            payments: self.payments.load(Ordering::SeqCst),
            orders: self.orders.load(Ordering::SeqCst),
        })
    }
}

/// What is noted of a run.
#[derive(Drop)]
pub struct Notes {
    /// How many stamps were given.
    stamps: AtomicU64,
    /// Whether somebody has waited in vain, or a disk has failed: then nobody waits any more.
    in_vain: AtomicU64,
    /// How often terminals have asked for their replies.
    asks: AtomicU64,
    /// How often they are to have asked before each sync that is held goes on.
    wanted: AtomicU64,
    /// How many syncs were held until they had.
    met: AtomicU64,
    /// The commits, by their numbers.
    commits: Vec<Note>,
}

impl Notes {
    /// Of a run that begins, of fewer commits than this.
    pub fn new(alloc: Global, commits: usize) -> Result<Notes, AllocError> {
        let mut notes = Vec::new(alloc);
        for _ in 0..commits {
            notes.push(Note::default())?;
        }
        Ok(Notes {
            stamps: AtomicU64::new(0),
            in_vain: AtomicU64::new(0),
            asks: AtomicU64::new(0),
            wanted: AtomicU64::new(0),
            met: AtomicU64::new(0),
            commits: notes,
        })
    }

    /// Of a run that goes on behind so many commits of another, which was stopped at this stamp. Each reply that was
    /// released by then counts as released at the first stamp.
    pub fn behind(
        alloc: Global,
        old: &Notes,
        stamp: u64,
        commits: u64,
    ) -> Result<Notes, AllocError> {
        let notes = Notes::new(alloc, old.commits.len())?;
        let first = notes.stamp();
        for (number, note) in notes.commits.iter().enumerate() {
            if number as u64 > commits {
                break;
            }
            if let Some(fact) = old.fact(number) {
                let stamp = if fact.stamp <= stamp { first } else { NEVER };
                note.store(Fact { stamp, ..fact });
            }
        }
        Ok(notes)
    }

    /// The next stamp, from 1 on.
    pub fn stamp(&self) -> u64 {
        self.stamps.fetch_add(1, Ordering::SeqCst).saturating_add(1)
    }

    /// How many stamps were given.
    pub fn stamps(&self) -> u64 {
        self.stamps.load(Ordering::SeqCst)
    }

    /// A reply was released.
    pub fn release(&self, done: &Done) {
        if let Some(note) = self.commits.get(done.number() as usize) {
            note.store(Fact {
                number: u64::from(done.number()),
                stamp: self.stamp(),
                epoch: u64::from(done.tid().epoch()),
                payments: u64::from(matches!(done.reply(), Reply::Payment(_))),
                orders: u64::from(matches!(done.reply(), Reply::NewOrder(_))),
            });
        }
    }

    /// Nobody waits any more.
    pub fn stop(&self) {
        self.in_vain.fetch_add(1, Ordering::SeqCst);
    }

    fn is_in_vain(&self) -> bool {
        self.in_vain.load(Ordering::SeqCst) > 0
    }

    /// Whether a sync is held until terminals have asked more often. By numbers alone: however late its thread goes on,
    /// they don't go further without it.
    fn is_awaited(&self) -> bool {
        self.asks.load(Ordering::SeqCst) < self.wanted.load(Ordering::SeqCst)
    }

    /// Waits until so many stamps more were given, or a sync is held.
    pub fn wait(&self, count: u64) {
        let until = self.stamps().saturating_add(count);
        for _ in 0..TURNS {
            if self.is_awaited() || self.stamps() >= until || self.is_in_vain() {
                return;
            }
            thread::yield_now();
        }
        self.stop();
    }

    /// A terminal has asked for its replies, and those that it got are noted.
    pub fn ask(&self) {
        self.asks.fetch_add(1, Ordering::SeqCst);
    }

    /// Holds a sync until terminals have asked so many times more, or for a while: those that wait go on meanwhile. What
    /// they may acknowledge before the sync is done they do so, and it has an earlier stamp.
    pub fn hold(&self, asks: u64) {
        let until = self.asks.load(Ordering::SeqCst).saturating_add(asks);
        self.wanted.fetch_max(until, Ordering::SeqCst);
        for _ in 0..LOOKS {
            if self.asks.load(Ordering::SeqCst) >= until {
                self.met.fetch_add(1, Ordering::SeqCst);
                return;
            }
            if self.is_in_vain() {
                return;
            }
            thread::yield_now();
        }
    }

    /// How many syncs were held until terminals had asked so many times.
    pub fn met(&self) -> u64 {
        self.met.load(Ordering::SeqCst)
    }

    /// What is known of the commit of this number.
    pub fn fact(&self, number: usize) -> Option<Fact> {
        self.commits.get(number)?.load(number)
    }

    /// How many numbers commits may have, with 0, which none has.
    pub fn len(&self) -> usize {
        self.commits.len()
    }
}
