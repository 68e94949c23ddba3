//! A record as a list of steps: what was seen, in the order of the stamps, and what must have come before it, as late
//! as can be; a publication as early as can be, right behind the sync that its mark waits for.

use crate::batches::{Batch, CALLS};
use crate::sights::{Sight, Sights};
use std::alloc::AllocError;
use traces::Step;

/// More steps than any record here has: a search that takes as many finds no place.
const MOST: u32 = 1_000_000;

/// A commit: its epoch, its logger, and its place in the logger's stream.
#[derive(Clone, Copy, Debug, PartialEq, Eq)]
pub(crate) struct Commit {
    pub(crate) epoch: u64,
    pub(crate) logger: usize,
    pub(crate) turn: usize,
}

/// A logger: its batches; the places of its stream's entries in the history; and how many batches were taken, and calls
/// done, so far.
#[derive(Drop)]
pub(crate) struct Line {
    pub(crate) batches: Vec<Batch>,
    pub(crate) places: Vec<usize>,
    pub(crate) taken: usize,
    pub(crate) calls: usize,
}

impl Line {
    /// The batch that is to be taken next.
    fn next(&self) -> Option<Batch> {
        self.batches.get(self.taken).copied()
    }

    /// Whether the last batch that was taken is in the file.
    fn is_idle(&self) -> bool {
        self.calls >= self.taken.saturating_mul(CALLS)
    }

    /// One call more: whether by it the first batch with a mark no less than this epoch is in the file, and synced.
    pub(crate) fn call_reaches(&mut self, epoch: u64) -> bool {
        self.calls = self.calls.saturating_add(1);
        let Some(last) = (self.calls / CALLS).checked_sub(1) else {
            return false;
        };
        let before = last.checked_sub(1).and_then(|one| self.batches.get(one));
        self.calls % CALLS == 0
            && self
                .batches
                .get(last)
                .map_or(false, |own| own.mark >= epoch)
            && before.map_or(true, |own| own.mark < epoch)
    }

    /// How much of the history has the entries of a batch.
    fn reach(&self, batch: Batch) -> usize {
        match batch.until.checked_sub(1) {
            Some(last) => self
                .places
                .get(last)
                .map_or(usize::MAX, |place| place.saturating_add(1)),
            None => 0,
        }
    }
}

/// The steps so far, and where they lead.
#[derive(Drop)]
pub(crate) struct Order {
    pub(crate) commits: Vec<Commit>,
    pub(crate) lines: Vec<Line>,
    pub(crate) committed: usize,
    pub(crate) epoch: u64,
    pub(crate) steps: Vec<Step>,
}

impl Order {
    /// One entry more of the history, of this logger.
    pub(crate) fn add(&mut self, logger: usize, epoch: u64) -> Result<(), AllocError> {
        let place = self.commits.len();
        let turn = self.lines.get(logger).map_or(0, |line| line.places.len());
        if let Some(line) = self.lines.get_mut(logger) {
            line.places.push(place)?;
        }
        self.commits.push(Commit {
            epoch,
            logger,
            turn,
        })?;
        Ok(())
    }

    /// How much of the history must have committed when a logger takes a batch: its entries, and those of epochs up to
    /// its mark.
    fn needed(&self, line: &Line, batch: Batch) -> usize {
        let past = self
            .commits
            .iter()
            .filter(|own| own.epoch <= batch.mark)
            .count();
        line.reach(batch).max(past)
    }

    /// The step towards a logger's next take, where all that must have committed has.
    fn take(&self, logger: usize) -> Option<Step> {
        let line = self.lines.get(logger)?;
        let batch = line.next()?;
        if !line.is_idle() || self.committed < self.needed(line, batch) {
            return None;
        }
        if self.epoch <= batch.mark {
            return Some(Step::Advance);
        }
        Some(Step::Take {
            logger,
            mark: batch.mark,
        })
    }

    /// Of loggers whose next batches have marks below this one, one with the least.
    fn first_below(&self, mark: u64) -> Option<usize> {
        let mut least = mark;
        let mut found = None;
        for (logger, line) in self.lines.iter().enumerate() {
            if let Some(batch) = line.next() {
                if batch.mark < least {
                    least = batch.mark;
                    found = Some(logger);
                }
            }
        }
        found
    }

    /// Of loggers whose next takes must come before this commit, one with the least mark: the batch hasn't the entry,
    /// though it is of its stream, or the entry's epoch is above the mark and one.
    fn first_before(&self, commit: Commit) -> Option<(usize, u64)> {
        let mut found: Option<(usize, u64)> = None;
        for (logger, line) in self.lines.iter().enumerate() {
            if let Some(batch) = line.next() {
                let has_passed = logger == commit.logger && batch.until <= commit.turn;
                let is_below = batch.mark.saturating_add(1) < commit.epoch;
                let is_least = found.map_or(true, |least| batch.mark < least.1);
                if (has_passed || is_below) && is_least {
                    found = Some((logger, batch.mark));
                }
            }
        }
        found
    }

    /// The step towards the next commit.
    fn commit(&self) -> Option<Step> {
        let next = self.commits.get(self.committed).copied()?;
        if let Some((logger, mark)) = self.first_before(next) {
            return self.take(self.first_below(mark).unwrap_or(logger));
        }
        if self.epoch < next.epoch {
            return Some(Step::Advance);
        }
        Some(Step::Commit)
    }

    /// The step towards the next take of a logger: takes at lower marks come first.
    fn towards_take(&self, logger: usize) -> Option<Step> {
        let batch = self.lines.get(logger)?.next()?;
        let first = self.first_below(batch.mark).unwrap_or(logger);
        let line = self.lines.get(first)?;
        if self.committed < self.needed(line, line.next()?) {
            return self.commit();
        }
        self.take(first)
    }

    /// One step more.
    fn put(&mut self, step: Step) -> Result<(), AllocError> {
        self.steps.push(step)?;
        match step {
            Step::Commit => self.committed = self.committed.saturating_add(1),
            Step::Advance => self.epoch = self.epoch.saturating_add(1),
            Step::Take { logger, .. } => {
                if let Some(line) = self.lines.get_mut(logger) {
                    line.taken = line.taken.saturating_add(1);
                }
            }
            Step::Call { logger } => {
                if let Some(line) = self.lines.get_mut(logger) {
                    line.calls = line.calls.saturating_add(1);
                }
            }
            _ => {}
        }
        Ok(())
    }

    /// Steps until a logger has taken more batches than so many, or there is no place for that.
    fn reach_take(&mut self, logger: usize, batches: usize) -> Result<(), AllocError> {
        for _ in 0..MOST {
            if self
                .lines
                .get(logger)
                .map_or(false, |line| line.taken > batches)
            {
                return Ok(());
            }
            let Some(step) = self.towards_take(logger) else {
                return Ok(());
            };
            self.put(step)?;
        }
        Ok(())
    }

    /// Steps until so much of the history has committed, or there is no place for that.
    fn reach_commits(&mut self, count: usize) -> Result<(), AllocError> {
        for _ in 0..MOST {
            if self.committed >= count {
                return Ok(());
            }
            let Some(step) = self.commit() else {
                return Ok(());
            };
            self.put(step)?;
        }
        Ok(())
    }

    /// A call of a logger's disk: before the first of a batch comes its take, if there is a place for it, and behind
    /// the last one its mark is confirmed and published.
    fn call(&mut self, logger: usize) -> Result<(), AllocError> {
        let calls = self.lines.get(logger).map_or(0, |line| line.calls);
        if calls % CALLS == 0 {
            self.reach_take(logger, calls / CALLS)?;
        }
        self.put(Step::Call { logger })?;
        if calls % CALLS == CALLS - 1 {
            self.publish(logger)?;
        }
        Ok(())
    }

    fn publish(&mut self, logger: usize) -> Result<(), AllocError> {
        self.put(Step::Confirm { logger })?;
        for _ in 0..self.lines.len() {
            self.put(Step::LoadMark { logger })?;
        }
        self.put(Step::RaiseDurable { logger })
    }

    fn release(&mut self, place: usize) -> Result<(), AllocError> {
        self.reach_commits(place.saturating_add(1))?;
        self.put(Step::Release { place })
    }

    /// All that was seen, and then all that has committed. What has no place stands there all the same: it is for the
    /// checker to refuse it.
    pub(crate) fn follow(&mut self, sights: &Sights) -> Result<(), AllocError> {
        for stamp in 0..sights.len() {
            match sights.at(stamp) {
                Some(Sight::Call { logger }) => self.call(logger)?,
                Some(Sight::Release { place }) => self.release(place)?,
                None => {}
            }
        }
        let all = self.commits.len();
        self.reach_commits(all)?;
        let committed = self.committed;
        for _ in committed..all {
            self.put(Step::Commit)?;
        }
        Ok(())
    }
}
