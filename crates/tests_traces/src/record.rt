//! The record of a life, and whether the checker accepts it.

use crate::batches::{Batch, batches};
use crate::order::{Commit, Line, Order};
use crate::sights::{Sight, Sights};
use book::Entry;
use log_disk::Memory;
use money::Refusal;
use std::alloc::{AllocError, Global};
use std::marker::Model;
use std::sync::Arc;
use tables::Scale;
use traces::{Start, Step, Trace, accepts, accepts_first_life};

/// What a life has committed: its entries may be written to log files.
#[derive(Drop)]
pub(crate) struct Made {
    pub(crate) scale: Scale,
    pub(crate) history: Vec<Arc<Entry, Global>>,
}

impl Model for Made {
    ghost use Rattle.std.specs.Prelude.{List, map, All};
    ghost use Rattle.std.specs.Arc.{arc_value};
    ghost use Rattle.book.specs.Loggable.{IsLoggable};
    ghost use Rattle.book.specs.declared.entry.Entry.{Entry};

    ghost Value = { List Entry };

    ghost view = { λ made. map arc_value made.history.items };

    ghost invariant = { λ made. All (IsLoggable made.scale) (map arc_value made.history.items) };
}

/// Where a life began: whether it was a first one; the epoch up to which all was past; and where its log files stood,
/// of which only how many calls had made them is asked in a first life.
#[derive(Drop)]
pub(crate) struct Beginning {
    pub(crate) is_first: bool,
    pub(crate) base: u64,
    pub(crate) starts: Vec<Start>,
}

/// Of how many records the checker accepts the steps, and of how many it refuses them.
#[derive(Clone, Copy, Debug, Default, PartialEq, Eq)]
pub(crate) struct Judgements {
    pub(crate) accepted: u64,
    pub(crate) refused: u64,
}

impl Judgements {
    /// One more.
    pub(crate) fn add(&mut self, is_accepted: bool) {
        self.accepted = self.accepted.saturating_add(u64::from(is_accepted));
        self.refused = self.refused.saturating_add(u64::from(!is_accepted));
    }

    /// With others.
    pub(crate) fn with(self, other: Judgements) -> Judgements {
        Judgements {
            accepted: self.accepted.saturating_add(other.accepted),
            refused: self.refused.saturating_add(other.refused),
        }
    }
}

/// The record of a life, with the batches that stand in the calls of each disk.
#[derive(Drop)]
pub(crate) struct Record {
    pub(crate) made: Made,
    pub(crate) beginning: Beginning,
    pub(crate) disks: Vec<Memory>,
    batches: Vec<Vec<Batch>>,
}

impl Record {
    /// Of a life that has committed this, and of its disks.
    pub(crate) fn of(
        alloc: Global,
        made: Made,
        beginning: Beginning,
        disks: Vec<Memory>,
    ) -> Result<Record, AllocError> {
        let mut record = Record {
            made,
            beginning,
            disks,
            batches: Vec::new(alloc),
        };
        record.read_batches(alloc)?;
        Ok(record)
    }

    fn read_batches(&mut self, alloc: Global) -> Result<(), AllocError> {
        for logger in 0..self.disks.len() {
            let batches = self.batches_of(alloc, logger)?;
            self.batches.push(batches)?;
        }
        Ok(())
    }

    /// The batches that stand in the calls of a logger's disk.
    fn batches_of(&self, alloc: Global, logger: usize) -> Result<Vec<Batch>, AllocError> {
        let stream = self.stream(alloc, logger)?;
        let first = self
            .beginning
            .starts
            .get(logger)
            .map_or(0, |start| start.calls);
        let calls = self.disks.get(logger).map_or(&[][..], |disk| disk.calls());
        batches(alloc, calls, first, &stream)
    }

    /// The entries of a logger's stream.
    fn stream(&self, alloc: Global, logger: usize) -> Result<Vec<Arc<Entry, Global>>, AllocError> {
        let mut stream = Vec::new(alloc);
        for entry in &self.made.history {
            if self.logger_of(entry) == logger {
                stream.push(entry.clone()?)?;
            }
        }
        Ok(stream)
    }

    /// The logger that an entry is of.
    fn logger_of(&self, entry: &Entry) -> usize {
        usize::from(entry.terminal)
            .checked_rem(self.disks.len())
            .unwrap_or(0)
    }

    /// The loggers, before anything is done.
    fn lines(&self, alloc: Global) -> Result<Vec<Line>, AllocError> {
        let mut lines = Vec::new(alloc);
        for batches in &self.batches {
            lines.push(Line {
                batches: Vec::from_slice(alloc, batches)?,
                places: Vec::new(alloc),
                taken: 0,
                calls: 0,
            })?;
        }
        Ok(lines)
    }

    /// The beginning of a list of steps.
    fn order(&self, alloc: Global) -> Result<Order, AllocError> {
        let mut order = Order {
            commits: Vec::new(alloc),
            lines: self.lines(alloc)?,
            committed: 0,
            epoch: self.beginning.base.saturating_add(1),
            steps: Vec::new(alloc),
        };
        for entry in &self.made.history {
            order.add(self.logger_of(entry), u64::from(entry.tid.epoch()))?;
        }
        Ok(order)
    }

    /// Whether the checker accepts the steps that fit what was seen best.
    pub(crate) fn is_accepted(&self, alloc: Global, sights: &Sights) -> Result<bool, Refusal> {
        let mut order = self.order(alloc)?;
        order.follow(sights)?;
        self.accepts(alloc, &order.steps)
    }

    fn accepts(&self, alloc: Global, steps: &[Step]) -> Result<bool, Refusal> {
        let made = &self.made;
        let trace = Trace::new(made.scale, &made.history, &self.disks);
        let beginning = &self.beginning;
        if beginning.starts.len() != self.disks.len() {
            return Err(Refusal::BadInput);
        }
        if beginning.is_first {
            // The plain population has seed 0.
            return accepts_first_life(alloc, 0, &trace, steps);
        }
        accepts(alloc, beginning.base, &beginning.starts, &trace, steps)
    }

    /// The stamp of the sync by which an epoch gets durable: by then each logger has a batch in its file, and synced,
    /// with a mark no less.
    fn sync_of(
        &self,
        alloc: Global,
        sights: &Sights,
        epoch: u64,
    ) -> Result<Option<usize>, AllocError> {
        let mut lines = self.lines(alloc)?;
        let mut short = lines.len();
        for stamp in 0..sights.len() {
            if let Some(Sight::Call { logger }) = sights.at(stamp) {
                if lines
                    .get_mut(logger)
                    .map_or(false, |line| line.call_reaches(epoch))
                {
                    short = short.saturating_sub(1);
                }
                if short == 0 {
                    return Ok(Some(stamp));
                }
            }
        }
        Ok(None)
    }

    /// Of every `step`th release, exchanges its stamp with that of the sync before it by which it was durable. Answers
    /// what is said of those records.
    pub(crate) fn exchanged(
        &self,
        alloc: Global,
        sights: &mut Sights,
        step: usize,
    ) -> Result<Judgements, Refusal> {
        let mut judgements = Judgements::default();
        let mut releases = 0usize;
        for stamp in 0..sights.len() {
            let Some(Sight::Release { place }) = sights.at(stamp) else {
                continue;
            };
            releases = releases.saturating_add(1);
            if releases % step.max(1) != 0 {
                continue;
            }
            if let Some(sync) = self.sync_of(alloc, sights, self.epoch_at(place))? {
                sights.exchange(sync, stamp);
                judgements.add(self.is_accepted(alloc, sights)?);
                sights.exchange(sync, stamp);
            }
        }
        Ok(judgements)
    }

    fn epoch_at(&self, place: usize) -> u64 {
        self.made
            .history
            .get(place)
            .map_or(0, |entry| u64::from(entry.tid.epoch()))
    }
}
