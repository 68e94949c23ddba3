//! Lives of a database in memory, recorded.
ghost use Rattle.std.specs.Prelude.{◌≡◌, ◌<◌, ◌≤◌, [], length, map, All, IfOk, IsTrue};
ghost use Rattle.std.specs.Arc.{arc_value};
ghost use Rattle.book.specs.Parts.{IsFresh, IsOpenedAs, IsLedgerOf, base_of, loggers_of, terminals_of};
ghost use Rattle.lane_logger.specs.Found.{as_they_are};
ghost use Rattle.program_run.specs.Outfit.{AreLogsOf};

use crate::record::Made;
use book::{Entry, Parts};
use lane_logger::LoggedRun;
use log_disk::{Disk, Memory};
use logfile::LogFile;
use money::Refusal;
use population::Population;
use program_run::{RunPlan, created, run_parts};
use recover_restart::{Restarted, restart};
use run_threads::{AtOnce, Pace, Paced};
use std::alloc::{AllocError, Global};
use std::marker::Brand;
use std::sync::{Arc, Wait};
use std::thread::Threads;
use tables::Scale;
use terminals::Gate;
use tests_log_files::unwatched;
use tests_recorded::{
    Notes, Recorded, Tape, Teller, Ways, is_possible, open_logs, recorded, slots, tellers,
};

/// How many commits the database takes.
pub(crate) const COMMITS: u32 = 400;

/// The plain population of one warehouse, two districts, ten customers a district and 20 items.
fn plain(alloc: Global) -> Result<Population, Refusal> {
    Population::plain(alloc, Scale::new(1, 2, 10, 20, 400, COMMITS)?)
}

/// The entries of a history.
fn copied(
    alloc: Global,
    history: &[Arc<Entry, Global>],
) -> Result<Vec<Arc<Entry, Global>>, AllocError>
    ensures { IfOk result (λ all. map arc_value all.items ≡ map arc_value history.now) }
{
    let mut all = Vec::new(alloc);
    for entry in history {
        all.push(entry.clone()?)?;
    }
    Ok(all)
}

/// Runs an engine of these parts. Answers what has committed.
fn made_by<
    K: LoggedRun + Send + Sync,
    D: Disk + Send + Drop,
    P: Pace + Send + Drop,
    G: Gate + Send + Drop,
    R: Threads + Wait + Sync,
>(
    rt: &R,
    alloc: Global,
    parts: Parts,
    logs: Vec<Paced<LogFile<D>, P>>,
    gates: Vec<G>,
    plan: &RunPlan,
) -> Result<Made, Refusal>
    requires run { IsOpenedAs parts K.run }
    requires ledger { IsLedgerOf parts K.name K.parts }
    requires logs { AreLogsOf (loggers_of parts) (base_of parts) (map (λ log. log.inner) logs.items) }
    requires named { K.found ≡ as_they_are D.seen D.story (map (λ log. log.inner) logs.items) }
    requires terminals { terminals_of parts ≡ plan.now.terminals }
    requires gates { length gates.items ≡ plan.now.terminals }
{
    let (outcome, scale) = run_parts::<K, D, P, G, R>(rt, alloc, parts, logs, gates, plan)?;
    let history = copied(alloc, outcome.closed.history())?;
    Ok(Made { scale, history })
}

/// A first life on empty disks.
pub(crate) fn begun<R: Threads + Wait + Sync>(
    rt: &R,
    alloc: Global,
    notes: &Notes,
    tapes: &mut [Tape],
    ways: Ways,
    plan: &RunPlan,
) -> Result<Made, Refusal> {
    let disks = recorded(alloc, notes, tapes, ways)?;
    let gates = tellers(alloc, notes, plan.terminals)?;
    let slots = slots(alloc, disks)?;
    if !is_possible(slots.len(), plan) {
        return Err(Refusal::BadInput);
    }
    begun_on(rt, alloc, slots, gates, plan)
}

/// The same, with gates.
fn begun_on<
    D: Disk + Send + Drop,
    P: Pace + Send + Drop,
    G: Gate + Send + Drop,
    R: Threads + Wait + Sync,
>(
    rt: &R,
    alloc: Global,
    slots: Vec<Paced<D, P>>,
    gates: Vec<G>,
    plan: &RunPlan,
) -> Result<Made, Refusal>
    requires loggers { (0 < length slots.items) × (length slots.items ≤ 8) }
    requires terminals { (0 < plan.now.terminals) × (plan.now.terminals ≤ 16) }
    requires gates { length gates.items ≡ plan.now.terminals }
    requires empty { D.is_modelled → All (λ slot. D.seen slot.inner ≡ []) slots.items }
{
    let population = plain(alloc)?;
    let (scale, seed) = (population.scale(), population.seed());
    let parts = Parts::new(rt, alloc, population, slots.len() as u16, plan.terminals)?;
    let logs = match created(alloc, scale, seed, slots) {
        Ok(logs) => logs,
        Err(refusal) => return Err(refusal),
    };
    made_by::<Brand, D, P, G, R>(rt, alloc, parts, logs, gates, plan)
}

/// Empty disks.
pub(crate) fn empty(alloc: Global, loggers: u16) -> Result<Vec<Tape>, AllocError> {
    let mut tapes = Vec::new(alloc);
    for _ in 0..loggers {
        tapes.push(Tape::new(alloc))?;
    }
    Ok(tapes)
}

/// The disks, without the stamps.
pub(crate) fn memories(alloc: Global, tapes: Vec<Tape>) -> Result<Vec<Memory>, AllocError> {
    let mut memories = Vec::new(alloc);
    for tape in tapes {
        memories.push(tape.memory)?;
    }
    Ok(memories)
}

/// A life that went on: what it has committed; the epoch up to which all was past, and how many commits, when it began;
/// and how many stamps there were then.
#[derive(Drop)]
pub(crate) struct Continued {
    pub(crate) made: Made,
    pub(crate) base: u64,
    pub(crate) past: u64,
    pub(crate) stamps: u64,
}

/// A life on disks that have log files.
pub(crate) fn resumed<R: Threads + Wait + Sync>(
    rt: &R,
    alloc: Global,
    notes: &Notes,
    tapes: &mut [Tape],
    ways: Ways,
    plan: &RunPlan,
) -> Result<Continued, Refusal> {
    let disks = recorded(alloc, notes, tapes, ways)?;
    let gates = tellers(alloc, notes, plan.terminals)?;
    resumed_on(rt, alloc, notes, disks, gates, plan)
}

/// The same, with gates.
fn resumed_on<R: Threads + Wait + Sync>(
    rt: &R,
    alloc: Global,
    notes: &Notes,
    disks: Vec<Recorded<'_>>,
    gates: Vec<Teller<'_>>,
    plan: &RunPlan,
) -> Result<Continued, Refusal>
    requires gates { length gates.items ≡ plan.now.terminals }
{
    if !is_possible(disks.len(), plan) {
        return Err(Refusal::BadInput);
    }
    let population = plain(alloc)?;
    let unwatched = unwatched(alloc);
    let restarted = match restart(rt, alloc, population, disks, plan.terminals, &unwatched) {
        Ok(restarted) => restarted,
        Err(refusal) => return Err(refusal),
    };
    made_behind(rt, alloc, notes, restarted, gates, plan)
}

/// Runs terminals on what was restarted.
fn made_behind<D: Disk + Send + Drop, G: Gate + Send + Drop, R: Threads + Wait + Sync>(
    rt: &R,
    alloc: Global,
    notes: &Notes,
    restarted: Restarted<D>,
    gates: Vec<G>,
    plan: &RunPlan,
) -> Result<Continued, Refusal>
    requires fresh { IsFresh restarted.parts }
    requires files { AreLogsOf (loggers_of restarted.parts) (base_of restarted.parts) restarted.files.items }
    requires terminals { terminals_of restarted.parts ≡ plan.now.terminals }
    requires gates { length gates.items ≡ plan.now.terminals }
{
    let Restarted {
        parts,
        files,
        commits,
        epoch,
    } = restarted;
    let logs = open_logs(alloc, files)?;
    let stamps = notes.stamps();
    Ok(Continued {
        made: made_by::<Brand, D, AtOnce, G, R>(rt, alloc, parts, logs, gates, plan)?,
        base: epoch.saturating_sub(1),
        past: commits,
        stamps,
    })
}
