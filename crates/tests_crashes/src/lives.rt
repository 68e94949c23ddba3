//! Lives of a database in memory: a run from the start, and one that goes on behind a crash.
ghost use Rattle.std.specs.Prelude.{◌≡◌, ◌<◌, ◌≤◌, length, map, IfOk, IsTrue};
ghost use Rattle.book.specs.Parts.{IsFresh, base_of, loggers_of, terminals_of};
ghost use Rattle.program_run.specs.Outfit.{AreLogsOf};

use book::Parts;
use log_disk::Disk;
use money::Refusal;
use population::Population;
use program_run::{Driven, RunPlan, created, drive};
use recover_restart::{Restarted, restart};
use std::alloc::Global;
use std::sync::Wait;
use std::thread::Threads;
use tables::Scale;
use tests_log_files::unwatched;
use tests_recorded::{
    Notes, Recorded, Tape, Teller, Ways, is_possible, open_logs, recorded, slots, tellers,
};

/// How many commits the database takes.
pub(crate) const COMMITS: u32 = 200;

/// The plain population of one warehouse, one district, ten customers and 20 items: small, since each crash looks at
/// all of it.
pub(crate) fn plain(alloc: Global) -> Result<Population, Refusal> {
    Population::plain(alloc, Scale::new(1, 1, 10, 20, 60, COMMITS)?)
}

/// What a life comes to.
#[derive(Clone, Copy, Debug, PartialEq, Eq)]
pub(crate) struct Lived {
    pub(crate) is_good: bool,
    pub(crate) has_stopped: bool,
}

fn outcome_of(driven: Driven) -> Lived {
    Lived {
        is_good: driven.report.is_good(),
        has_stopped: driven.shortfall.is_some(),
    }
}

/// A first life on empty disks.
pub(crate) fn begun<R: Threads + Wait + Sync>(
    rt: &R,
    alloc: Global,
    notes: &Notes,
    tapes: &mut [Tape],
    ways: Ways,
    plan: &RunPlan,
) -> Result<Lived, Refusal> {
    let disks = recorded(alloc, notes, tapes, ways)?;
    let gates = tellers(alloc, notes, plan.terminals)?;
    let slots = slots(alloc, disks)?;
    if !is_possible(slots.len(), plan) {
        return Err(Refusal::BadInput);
    }
    let (population, mut text) = (plain(alloc)?, Vec::new(alloc));
    let logs = created(alloc, population.scale(), population.seed(), slots)?;
    let parts = Parts::new(rt, alloc, population, logs.len() as u16, plan.terminals)?;
    let driven = drive(rt, alloc, parts, logs, gates, plan, &mut text)?;
    Ok(outcome_of(driven))
}

/// A life on disks that have log files.
pub(crate) fn resumed<R: Threads + Wait + Sync>(
    rt: &R,
    alloc: Global,
    notes: &Notes,
    tapes: &mut [Tape],
    ways: Ways,
    plan: &RunPlan,
) -> Result<Lived, Refusal> {
    let disks = recorded(alloc, notes, tapes, ways)?;
    let gates = tellers(alloc, notes, plan.terminals)?;
    resumed_on(rt, alloc, disks, gates, plan)
}

/// The same, with gates.
fn resumed_on<R: Threads + Wait + Sync>(
    rt: &R,
    alloc: Global,
    disks: Vec<Recorded<'_>>,
    gates: Vec<Teller<'_>>,
    plan: &RunPlan,
) -> Result<Lived, Refusal>
    requires gates { length gates.items ≡ plan.now.terminals }
{
    if !is_possible(disks.len(), plan) {
        return Err(Refusal::BadInput);
    }
    let population = plain(alloc)?;
    let unwatched = unwatched(alloc);
    let restarted = match restart(rt, alloc, population, disks, plan.terminals, &unwatched) {
        Ok(restarted) => restarted,
        Err(refusal) => return Err(refusal),
    };
    driven_on(rt, alloc, restarted, gates, plan)
}

/// Runs terminals on what was restarted.
fn driven_on<D: Disk + Send + Drop, R: Threads + Wait + Sync>(
    rt: &R,
    alloc: Global,
    restarted: Restarted<D>,
    gates: Vec<Teller<'_>>,
    plan: &RunPlan,
) -> Result<Lived, Refusal>
    requires fresh { IsFresh restarted.parts }
    requires files { AreLogsOf (loggers_of restarted.parts) (base_of restarted.parts) restarted.files.items }
    requires terminals { terminals_of restarted.parts ≡ plan.now.terminals }
    requires gates { length gates.items ≡ plan.now.terminals }
{
    let Restarted { parts, files, .. } = restarted;
    let logs = open_logs(alloc, files)?;
    let mut text = Vec::new(alloc);
    let driven = drive(rt, alloc, parts, logs, gates, plan, &mut text)?;
    Ok(outcome_of(driven))
}
