//! A run from a population, or from what was restarted, to its report.
ghost use Rattle.std.specs.Prelude.{◌≡◌, length, map, IfOk, IfErr};
ghost use Rattle.money.specs.declared.refusal.Refusal.TheVariants.{OutOfMemory};
ghost use Rattle.book.specs.Parts.{IsFresh, IsOpenedAs, IsLedgerOf, base_of, first_of, past_of, loggers_of, terminals_of};
ghost use Rattle.lane_logger.specs.Found.{as_they_are};
ghost use Rattle.program_run.specs.Outfit.{AreLogsOf};
ghost use Rattle.program_run.specs.Told.{AreCounts, IsBrokenBy, IsDriven};

use crate::outfit::{manned, stations};
use crate::shortfall::{Shortfall, shortfall_of};
use crate::telling::ran;
use book::{Engine, Parts, Seats};
use conditions::Report;
use lane_logger::LoggedRun;
use log_disk::Disk;
use logfile::LogFile;
use money::Refusal;
use run_threads::{Desks, Outcome, Pace, Paced, run};
use std::alloc::Global;
use std::io::Write;
use std::marker::Brand;
use std::sync::Wait;
use std::thread::Threads;
use tables::Scale;
use terminals::Gate;

/// What terminals there are, and what they do.
#[derive(Clone, Copy, Debug, PartialEq, Eq)]
pub struct RunPlan {
    /// How many terminals, 1 to 16.
    pub terminals: u16,
    /// How many inputs each has.
    pub inputs: u32,
    /// What the inputs are drawn from.
    pub seed: u64,
}

/// A run that was told.
#[derive(Debug, Drop)]
pub struct Driven {
    /// The report of the committed tables.
    pub report: Report,
    /// What kept its commits from being durable, or its loggers from going on to the end, if anything did. Without it
    /// each commit was acknowledged.
    pub shortfall: Option<Shortfall>,
}

/// What of a run was refused.
#[derive(Clone, Copy, Debug, PartialEq, Eq)]
pub enum Broken {
    /// The run itself: no input ran.
    Unrun(Refusal),
    /// What is told of it, once all inputs had run.
    Untold(Refusal),
}

impl From<Broken> for Refusal {
    ghost use Rattle.std.specs.Prelude.{◌≡◌};
    ghost use Rattle.program_run.specs.Told.{refusal_in};

    ghost from_gives = { λ broken refusal. refusal ≡ refusal_in broken };

    fn from(broken: Broken) -> Refusal {
        match broken {
            Broken::Unrun(refusal) | Broken::Untold(refusal) => refusal,
        }
    }
}

/// Runs an engine of these parts, with log files that are open, one for each logger, in their order, each at the mark
/// at which the parts begin, as `created` gives new ones, and `restart` those that go on; and with a gate for each
/// terminal; and writes what came of it, as `ran` does. May wait, as `run_threads::run` does.
///
/// # Errors
///
/// `Unrun` by `OutOfMemory`: then no input runs, and nothing is written. `Untold` as `ran`. A disk that fails stops its
/// logger.
pub fn drive<
    D: Disk + Send + Drop,
    P: Pace + Send + Drop,
    G: Gate + Send + Drop,
    W: Write,
    R: Threads + Wait + Sync,
>(
    rt: &R,
    alloc: Global,
    parts: Parts,
    logs: Vec<Paced<LogFile<D>, P>>,
    gates: Vec<G>,
    plan: &RunPlan,
    writer: &mut W,
) -> Result<Driven, Broken>
    requires fresh { IsFresh parts }
    requires logs { AreLogsOf (loggers_of parts) (base_of parts) (map (λ log. log.inner) logs.items) }
    requires terminals { terminals_of parts ≡ plan.now.terminals }
    requires gates { length gates.items ≡ plan.now.terminals }
    ensures ran { IfOk result (IsDriven (past_of parts) (first_of parts) plan.now.terminals plan.now.inputs
        (W.contents writer.old) (W.contents writer.new)) }
    ensures broken { IfErr result (IsBrokenBy (past_of parts) (first_of parts) plan.now.terminals plan.now.inputs
        (W.contents writer.old) (W.contents writer.new)) }
{
    drive_parts::<Brand, D, P, G, W, R>(rt, alloc, parts, logs, gates, plan, writer)
}

/// Runs an engine of these parts, and writes what came of it.
fn drive_parts<
    K: LoggedRun + Send + Sync,
    D: Disk + Send + Drop,
    P: Pace + Send + Drop,
    G: Gate + Send + Drop,
    W: Write,
    R: Threads + Wait + Sync,
>(
    rt: &R,
    alloc: Global,
    parts: Parts,
    logs: Vec<Paced<LogFile<D>, P>>,
    gates: Vec<G>,
    plan: &RunPlan,
    writer: &mut W,
) -> Result<Driven, Broken>
    requires run { IsOpenedAs parts K.run }
    requires ledger { IsLedgerOf parts K.name K.parts }
    requires logs { AreLogsOf (loggers_of parts) (base_of parts) (map (λ log. log.inner) logs.items) }
    requires named { K.found ≡ as_they_are D.seen D.story (map (λ log. log.inner) logs.items) }
    requires terminals { terminals_of parts ≡ plan.now.terminals }
    requires gates { length gates.items ≡ plan.now.terminals }
    ensures ran { IfOk result (IsDriven K.run.past K.run.first plan.now.terminals plan.now.inputs
        (W.contents writer.old) (W.contents writer.new)) }
    ensures broken { IfErr result (IsBrokenBy K.run.past K.run.first plan.now.terminals plan.now.inputs
        (W.contents writer.old) (W.contents writer.new)) }
{
    let made = match run_parts::<K, D, P, G, R>(rt, alloc, parts, logs, gates, plan) {
        Ok(made) => made,
        Err(refusal) => return Err(Broken::Unrun(refusal)),
    };
    let (mut outcome, _scale) = made;
    let shortfall = shortfall_of(&outcome.counts, &outcome.files);
    let report = match ran(alloc, &mut outcome, writer) {
        Ok(report) => report,
        Err(refusal) => return Err(Broken::Untold(refusal)),
    };
    Ok(Driven { report, shortfall })
}

/// Runs an engine of these parts, as `drive` does, and answers what came of it, with the scale of its database. May
/// wait, as `run_threads::run` does. `OutOfMemory` is the only refusal; then no input runs.
pub fn run_parts<
    K: LoggedRun + Send + Sync,
    D: Disk + Send + Drop,
    P: Pace + Send + Drop,
    G: Gate + Send + Drop,
    R: Threads + Wait + Sync,
>(
    rt: &R,
    alloc: Global,
    parts: Parts,
    logs: Vec<Paced<LogFile<D>, P>>,
    gates: Vec<G>,
    plan: &RunPlan,
) -> Result<(Outcome<K, D>, Scale), Refusal>
    requires run { IsOpenedAs parts K.run }
    requires ledger { IsLedgerOf parts K.name K.parts }
    requires logs { AreLogsOf (loggers_of parts) (base_of parts) (map (λ log. log.inner) logs.items) }
    requires named { K.found ≡ as_they_are D.seen D.story (map (λ log. log.inner) logs.items) }
    requires terminals { terminals_of parts ≡ plan.now.terminals }
    requires gates { length gates.items ≡ plan.now.terminals }
    ensures counted { IfOk result
        (λ x. AreCounts K.run.past K.run.first plan.now.terminals plan.now.inputs x.0.closed x.0.tallies.items x.0.counts) }
    ensures scale { IfOk result (λ x. x.1 ≡ K.run.first.scale) }
    ensures only_memory { IfErr result (λ refusal. refusal ≡ OutOfMemory) }
{
    let (engine, seats) = Engine::<K>::open(parts);
    let Seats {
        clock,
        loggers,
        terminals,
    } = seats;
    let scale = engine.population().scale();
    let desks = Desks { clock, terminals };
    let logs = manned(alloc, engine.board(), loggers, logs)?;
    let stations = stations(alloc, scale, gates, plan.terminals, plan.seed)?;
    let outcome = run::<K, G, D, P, R>(rt, alloc, engine, desks, logs, stations, plan.inputs)?;
    Ok((outcome, scale))
}
