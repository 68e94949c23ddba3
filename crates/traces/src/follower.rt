//! The world, as values, which goes from step to step of a trace.
ghost use Rattle.std.specs.Prelude.{◌≡◌, ◌<◌, ◌≤◌, ℕ, Some, IfOk, MatchOption, length, slice_index_or};
ghost use Rattle.std.specs.List.{slice_get};
ghost use Rattle.recover_crashes.specs.World.{Life, DiskView, opening};
ghost use Rattle.logfile.specs.Standing.{LogFileView};
ghost use Rattle.traces.specs.Shown.{ShowsWorld, FollowsStep, lane_at};
ghost use Rattle.traces.specs.Told.{TraceView, AreStarts};

use crate::lane::{Batched, Lane, Phase};
use crate::step::{Start, Step};
use crate::trace::Trace;
use money::Refusal;
use std::alloc::{AllocError, Global};
use tables::limits::LAST_EPOCH;

/// The world: E, and the E that the book has found last; D; how much of the history has committed; and the loggers.
#[derive(Drop)]
pub(crate) struct Follower {
    pub epoch: u64,
    pub found: u64,
    pub durable: u64,
    pub committed: usize,
    pub lanes: Vec<Lane>,
}

impl Follower {
    /// Where a life begins, behind this epoch, with log files that stand so.
    pub(crate) fn new(alloc: Global, base: u64, starts: &[Start]) -> Result<Follower, Refusal>
        ensures { IfOk result (λ follower. (life : Life) (t : TraceView) (files : ℕ → LogFileView DiskView)
            → life.plan.base ≡ base → length t.disks ≡ length starts.now → AreStarts life t starts.now files
            → ShowsWorld t follower (opening life.plan files)) }
    {
        let Some(epoch) = base.checked_add(1) else {
            return Err(Refusal::BadInput);
        };
        Ok(Follower {
            epoch,
            found: epoch,
            durable: base,
            committed: 0,
            lanes: lanes(alloc, base, starts)?,
        })
    }

    /// A logger, if there is one of this number.
    fn lane(&self, logger: usize) -> Option<Lane>
        ensures { MatchOption result (length self.now.lanes.items ≤ logger)
            (λ lane. slice_get self.now.lanes.items logger ≡ Some lane) }
    {
        self.lanes.get(logger).copied()
    }

    /// Takes this step, if it may be taken, and tells whether it may.
    ///
    /// # Errors
    ///
    /// `OutOfMemory`; `BadInput` where a file's text would end at 2^64 or beyond.
    pub(crate) fn follow(
        &mut self,
        alloc: Global,
        trace: &Trace<'_>,
        step: Step,
    ) -> Result<bool, Refusal>
        ensures { IfOk result (FollowsStep trace.now step self.old self.new) }
    {
        match step {
            Step::Commit => Ok(self.commit(trace)),
            Step::Take { logger, mark } => Ok(self.take(trace, logger, mark)),
            Step::Advance => Ok(self.advance(trace)),
            Step::Call { logger } => self.call(alloc, trace, logger),
            Step::Confirm { logger } => Ok(self.confirm(trace, logger)),
            Step::LoadMark { logger } => Ok(self.load_mark(trace, logger)),
            Step::RaiseDurable { logger } => Ok(self.raise_durable(trace, logger)),
            Step::Release { place } => Ok(self.release(trace, place)),
        }
    }

    fn commit(&mut self, trace: &Trace<'_>) -> bool
        ensures { FollowsStep trace.now Step.Commit self.old self.new result }
    {
        let Some(entry) = trace.entry(self.committed) else {
            return false;
        };
        let epoch = u64::from(entry.tid.epoch());
        if epoch < self.found || self.epoch < epoch || entry.number > trace.scale().commits() {
            return false;
        }
        self.found = epoch;
        self.committed += 1;
        true
    }

    fn take(&mut self, _trace: &Trace<'_>, logger: usize, mark: u64) -> bool
        ensures { FollowsStep _trace.now (Step.Take logger mark) self.old self.new result }
    {
        let Some(mut lane) = self.lane(logger) else {
            return false;
        };
        if !lane.is_idle() || self.epoch <= mark || mark + 1 < self.found {
            return false;
        }
        lane.batched = Some(Batched {
            phase: Phase::BatchTaken,
            mark,
            until: self.committed,
            length: 0,
        });
        self.lanes[logger] = lane;
        self.found = mark + 1;
        true
    }

    fn advance(&mut self, _trace: &Trace<'_>) -> bool
        ensures { FollowsStep _trace.now Step.Advance self.old self.new result }
    {
        if LAST_EPOCH <= self.epoch {
            return false;
        }
        self.epoch += 1;
        true
    }

    fn call(&mut self, alloc: Global, trace: &Trace<'_>, logger: usize) -> Result<bool, Refusal>
        ensures { IfOk result (FollowsStep trace.now (Step.Call logger) self.old self.new) }
    {
        let Some(lane) = self.lane(logger) else {
            return Ok(false);
        };
        let Some(call) = trace.call(logger, lane.calls) else {
            return Ok(false);
        };
        let Some(lane) = lane.called(alloc, trace, logger, call)? else {
            return Ok(false);
        };
        self.lanes[logger] = lane;
        Ok(true)
    }

    fn confirm(&mut self, _trace: &Trace<'_>, logger: usize) -> bool
        ensures { FollowsStep _trace.now (Step.Confirm logger) self.old self.new result }
    {
        let Some(mut lane) = self.lane(logger) else {
            return false;
        };
        lane.local = lane.mark;
        self.lanes[logger] = lane;
        true
    }

    fn load_mark(&mut self, _trace: &Trace<'_>, logger: usize) -> bool
        ensures { FollowsStep _trace.now (Step.LoadMark logger) self.old self.new result }
    {
        let Some(mut lane) = self.lane(logger) else {
            return false;
        };
        let Some(next) = self.lane(lane.loaded) else {
            return false;
        };
        lane.least = lane.least_with(next.local);
        lane.loaded += 1;
        self.lanes[logger] = lane;
        true
    }

    fn raise_durable(&mut self, _trace: &Trace<'_>, logger: usize) -> bool
        ensures { FollowsStep _trace.now (Step.RaiseDurable logger) self.old self.new result }
    {
        let Some(mut lane) = self.lane(logger) else {
            return false;
        };
        if lane.loaded != self.lanes.len() {
            return false;
        }
        self.durable = self.durable.max(lane.least);
        lane.loaded = 0;
        lane.least = 0;
        self.lanes[logger] = lane;
        true
    }

    fn release(&mut self, trace: &Trace<'_>, place: usize) -> bool
        ensures { FollowsStep trace.now (Step.Release place) self.old self.new result }
    {
        if self.committed <= place {
            return false;
        }
        let Some(entry) = trace.entry(place) else {
            return false;
        };
        u64::from(entry.tid.epoch()) <= self.durable
    }
}

/// The loggers of a life that begins behind this epoch, whose log files stand so.
fn lanes(alloc: Global, base: u64, starts: &[Start]) -> Result<Vec<Lane>, AllocError>
    ensures count { IfOk result (λ lanes. length lanes.items ≡ length starts.now) }
    ensures each { IfOk result (λ lanes. (l : ℕ) → l < length starts.now → (d : Lane) → (start : Start)
        → slice_index_or lanes.items l d ≡ lane_at base (slice_index_or starts.now l start)) }
{
    starts
        .iter()
        .map(|start| Lane::new(base, *start))
        .collect(alloc)
}
