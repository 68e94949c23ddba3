//! The subcommand `run` with `--resume`: terminals and loggers in threads, going on from the log files that are there.
ghost use Rattle.std.specs.Prelude.{◌≡◌, ◌≢◌, ◌⊎◌, ◌++◌, ◌<◌, ◌≤◌, ℕ, List, Option, length, map};
ghost use Rattle.std.specs.Prelude.{IfOk, IfErr, IfSome, OnOk, string_bytes};
ghost use Rattle.std.specs.Io.KnownBytes.{Appends};
ghost use Rattle.money.specs.declared.refusal.Refusal.TheVariants.{OutOfMemory, Device, Damaged, Gap, EpochFull};
ghost use Rattle.tables.specs.Database.{Database};
ghost use Rattle.tables.specs.declared.limits.TheConstants.{MAX_LOGGERS, MAX_TERMINALS};
ghost use Rattle.population.specs.Initial.{initial, seed_of};
ghost use Rattle.book.specs.Parts.{IsFresh, base_of, first_of, loggers_of, past_of, terminals_of};
ghost use Rattle.recover_restart.specs.Restarting.{GoesOnFrom, StandAt};
ghost use Rattle.program_run.specs.Outfit.{AreLogsOf};
ghost use Rattle.program_run.specs.Told.{IsBrokenBy, IsDriven};
ghost use Rattle.program_files.specs.Causes.{cause_of};
ghost use Rattle.program_files.specs.Logs.{IsWhy};
ghost use Rattle.program_files.specs.declared.fault.Purpose.TheVariants.{Append};
ghost use Rattle.program_live.specs.Resumed.{IsDrivenFurther, IsResumedDurably, IsUnfinishedResumedRun, resumed_line};
ghost use Rattle.program_live.specs.Breaks.{IsToldAsUnfinished};

use crate::asked_population::population_of;
use crate::ended::ended;
use crate::guarded::guarded;
use crate::live::{gates, paced, plan_of, screen_of, waits_for};
use conditions::Report;
use log_disk::{Disk, FileDisk};
use logfile::LogFile;
use money::Refusal;
use population::Population;
use program_files::{Fault, Purpose, broken_off, disks, sizes, unrecovered};
use program_options::RunOptions;
use program_recovery::while_shown;
use program_run::{Alarm, Beat, Broken, Driven, Screen, Stopwatch, Waits, drive};
use program_streams::write_text;
use recover_progress::Progress;
use recover_restart::{Restarted, restart};
use run_threads::Paced;
use std::alloc::{AllocError, Global};
use std::fs::File;
use std::io::Write;
use std::rt::Files;
use std::sync::Wait;
use std::thread::Threads;
use std::time::Clock;
use tables::Scale;

/// What of a resumed run was refused.
#[derive(Clone, Copy, Debug, PartialEq, Eq)]
pub(crate) enum Break {
    /// The restart on its log files.
    Restart(Refusal),
    /// The line on what was recovered.
    Telling(Refusal),
    /// The run itself, or what is told of it.
    Run(Refusal),
}

/// Goes on from the log files of a run that ended or was stopped: tells how many commits were recovered, and the epoch
/// in which it goes on, runs terminals, and writes what came of it. Answers the report of the committed tables. How far
/// the recovery is, and then the run, goes to the screen, if there is one.
pub fn go_on<
    T: Wait + Threads + Clock + Files<File = File> + Sync,
    W: Write,
    S: Write + Send + Drop,
>(
    rt: &T,
    alloc: Global,
    population: Population,
    options: &RunOptions,
    output: &mut W,
    screen: Option<S>,
) -> Result<Report, Fault>
    ensures ran { IfOk result (IsResumedDurably options.now (initial population) (seed_of population)
        (W.contents output.old) (W.contents output.new)) }
    ensures failed { IfErr result (λ fault. IsUnfinishedResumedRun options.now (initial population)
        (seed_of population) (W.contents output.old) (W.contents output.new) fault.refusal (cause_of fault)) }
{
    let files = &options.files;
    let mut disks = match disks(rt, alloc, files, Purpose::Append) {
        Ok(disks) => disks,
        Err(fault) => return Err(fault),
    };
    let (scale, seed) = (population.scale(), population.seed());
    let alarms = Alarm::for_loggers(alloc, disks.len())?;
    let guarded = guarded(alloc, &mut disks, &alarms)?;
    match run_restarted(
        rt, alloc, population, options, guarded, output, screen, &alarms,
    ) {
        Ok(driven) => ended(alloc, files, Purpose::Append, driven, &disks),
        Err(broken) => Err(fault_of(alloc, scale, seed, options, broken, &mut disks)),
    }
}

/// The fault of a resumed run that was refused.
fn fault_of(
    alloc: Global,
    scale: Scale,
    seed: u64,
    options: &RunOptions,
    broken: Break,
    disks: &mut [FileDisk],
) -> Fault
    requires { length disks.old ≡ options.now.files.loggers }
    ensures { (t0 : Database) (old new : Option (List ℕ)) → t0.scale ≡ scale
        → IsToldAsUnfinished options.now t0 seed old new broken
        → IsUnfinishedResumedRun options.now t0 seed old new result.refusal (cause_of result) }
{
    match broken {
        Break::Restart(refusal) => unresumed(alloc, scale, seed, options, refusal, disks),
        Break::Telling(refusal) => Fault::of(refusal),
        Break::Run(refusal) => {
            broken_off(alloc, &options.files, Purpose::Append, refusal, disks)
        }
    }
}

/// Restarts on these disks, tells what was recovered, and runs terminals on it.
fn run_restarted<
    T: Wait + Threads + Clock + Files<File = File> + Sync,
    D: Disk + Send + Drop,
    W: Write,
    S: Write + Send + Drop,
>(
    rt: &T,
    alloc: Global,
    population: Population,
    options: &RunOptions,
    disks: Vec<D>,
    output: &mut W,
    screen: Option<S>,
    alarms: &[Alarm],
) -> Result<Driven, Break>
    requires loggers { length disks.items ≡ options.now.files.loggers }
    ensures ran { IfOk result (IsDrivenFurther options.now (initial population) (seed_of population)
        (W.contents output.old) (W.contents output.new)) }
    ensures broken { IfErr result (IsToldAsUnfinished options.now (initial population) (seed_of population)
        (W.contents output.old) (W.contents output.new)) }
{
    let mut screen = screen;
    let restarted = match restarted(rt, alloc, population, options, disks, screen.as_mut()) {
        Ok(restarted) => restarted,
        Err(refusal) => return Err(Break::Restart(refusal)),
    };
    match tell_resumed(alloc, restarted.commits, restarted.epoch, output) {
        Ok(()) => {}
        Err(refusal) => return Err(Break::Telling(refusal)),
    }
    match drive_restarted(rt, alloc, restarted, options, output, screen, alarms) {
        Ok(driven) => Ok(driven),
        Err(broken) => Err(Break::Run(Refusal::from(broken))),
    }
}

/// Restarts on these disks, while the screen shows how far it is, if there is one.
fn restarted<
    T: Wait + Threads + Clock + Files<File = File> + Sync,
    D: Disk + Drop,
    S: Write + Send + Drop,
>(
    rt: &T,
    alloc: Global,
    population: Population,
    options: &RunOptions,
    disks: Vec<D>,
    screen: Option<S>,
) -> Result<Restarted<D>, Refusal>
    requires loggers { length disks.items ≡ options.now.files.loggers }
    ensures goes_on { IfOk result (λ r. (strings : List (List ℕ))
        × GoesOnFrom (initial population) (seed_of population)
        options.now.files.loggers options.now.terminals strings r.parts r.commits r.epoch) }
    ensures stand { IfOk result (λ r. StandAt (initial population).scale (seed_of population)
        options.now.files.loggers (base_of r.parts) r.files.items) }
    ensures others { IfErr result (λ refusal. (refusal ≡ OutOfMemory) ⊎ (refusal ≡ Device) ⊎ (refusal ≡ Gap)
        ⊎ (refusal ≡ EpochFull) ⊎ (refusal ≡ Damaged)) }
{
    let shown_sizes = match &screen {
        Some(_) => sizes(rt, alloc, &options.files).unwrap_or(Vec::new(alloc)),
        None => Vec::new(alloc),
    };
    let progress = &Progress::of(shown_sizes);
    let terminals = options.terminals as u16;
    let work = move || -> Result<Restarted<D>, Refusal>
        requires { ((0 < length disks.items) × (length disks.items ≤ MAX_LOGGERS))
            × ((0 < terminals) × (terminals ≤ MAX_TERMINALS)) }
        ensures { IfOk result (λ r. ((strings : List (List ℕ))
            × GoesOnFrom (initial population) (seed_of population)
            (length disks.items) terminals strings r.parts r.commits r.epoch)
            × StandAt (initial population).scale (seed_of population) (length disks.items) (base_of r.parts)
            r.files.items)
            × IfErr result (λ refusal. (refusal ≢ OutOfMemory) → (refusal ≢ Device) → (refusal ≢ Gap)
            → (refusal ≢ EpochFull) → refusal ≡ Damaged) }
    { restart(rt, alloc, population, disks, terminals, progress) };
    while_shown(rt, alloc, progress, screen, work)
}

/// The fault of a restart that was refused. What is wrong with the files is told by the population's scale and seed;
/// the restart has used up the population, so it is made once more for that.
fn unresumed(
    alloc: Global,
    scale: Scale,
    seed: u64,
    options: &RunOptions,
    refusal: Refusal,
    disks: &mut [FileDisk],
) -> Fault
    requires { length disks.old ≡ options.now.files.loggers }
    ensures refusal { result.refusal ≡ refusal }
    ensures cause { IfSome (cause_of result) (IsWhy Append options.now.files scale seed refusal) }
{
    if !matches!(refusal, Refusal::Damaged | Refusal::Gap) {
        return broken_off(alloc, &options.files, Purpose::Append, refusal, disks);
    }
    match population_of(alloc, scale, seed) {
        Ok(population) => {
            let purpose = Purpose::Append;
            unrecovered(alloc, &population, &options.files, purpose, refusal, disks)
        }
        Err(_) => Fault::of(refusal),
    }
}

/// Writes how many commits were recovered, and the epoch in which a run goes on: `resumed 2 epoch 9`.
fn tell_resumed<W: Write>(
    alloc: Global,
    commits: u64,
    epoch: u64,
    output: &mut W,
) -> Result<(), Refusal>
    ensures whole { OnOk result
        (Appends (W.contents output.old) (W.contents output.new) (resumed_line commits epoch)) }
    ensures beginning { IfErr result (λ refusal. (front rest : List ℕ)
        × (front ++ rest ≡ resumed_line commits epoch)
        × Appends (W.contents output.old) (W.contents output.new) front
        × ((refusal ≡ OutOfMemory) ⊎ (refusal ≡ Device))) }
{
    let text = resumed_text(alloc, commits, epoch)?;
    write_text(output, text.as_bytes())?;
    Ok(())
}

/// The line on what was recovered.
fn resumed_text(alloc: Global, commits: u64, epoch: u64) -> Result<String, AllocError>
    ensures { IfOk result (λ text. string_bytes text ≡ resumed_line commits epoch) }
{
    format!(in alloc; "resumed {commits} epoch {epoch}\n")
}

/// Runs terminals on what was restarted, and writes what came of it.
fn drive_restarted<
    T: Wait + Threads + Clock + Sync,
    D: Disk + Send + Drop,
    W: Write,
    S: Write + Send + Drop,
>(
    rt: &T,
    alloc: Global,
    restarted: Restarted<D>,
    options: &RunOptions,
    output: &mut W,
    screen: Option<S>,
    alarms: &[Alarm],
) -> Result<Driven, Broken>
    requires fresh { IsFresh restarted.parts }
    requires files { AreLogsOf (loggers_of restarted.parts) (base_of restarted.parts) restarted.files.items }
    requires terminals { terminals_of restarted.parts ≡ options.now.terminals }
    ensures ran { IfOk result (IsDriven (past_of restarted.parts) (first_of restarted.parts)
        options.now.terminals options.now.count (W.contents output.old) (W.contents output.new)) }
    ensures broken { IfErr result (IsBrokenBy (past_of restarted.parts) (first_of restarted.parts)
        options.now.terminals options.now.count (W.contents output.old) (W.contents output.new)) }
{
    let Restarted { parts, files, .. } = restarted;
    let Ok(waits) = waits_for(alloc, &screen) else {
        return Err(Broken::Unrun(Refusal::OutOfMemory));
    };
    let waits = waits.as_ref();
    let screen = screen_of(rt, alloc, screen, waits, alarms, &options.files);
    let (gates, logs) = match outfit(rt, alloc, files, options, screen, waits) {
        Ok(outfit) => outfit,
        Err(_) => return Err(Broken::Unrun(Refusal::OutOfMemory)),
    };
    drive(rt, alloc, parts, logs, gates, &plan_of(options), output)
}

/// What terminals and loggers are given: gates, and open log files with their beats.
fn outfit<'a, D: Disk + Drop, C: Clock + Wait, S: Write + Drop>(
    clock: &'a C,
    alloc: Global,
    files: Vec<LogFile<D>>,
    options: &RunOptions,
    screen: Option<Screen<'a, S>>,
    waits: Option<&'a Waits>,
) -> Result<
    (
        Vec<Stopwatch<'a, C>>,
        Vec<Paced<LogFile<D>, Beat<'a, C, S>>>,
    ),
    AllocError,
>
    ensures gates { IfOk result (λ outfit. length outfit.0.items ≡ options.now.terminals) }
    ensures logs { IfOk result (λ outfit. map (λ log. log.inner) outfit.1.items ≡ files.items) }
{
    let gates = gates(clock, alloc, options.terminals as u16, waits)?;
    let logs = paced(clock, alloc, files, screen)?;
    Ok((gates, logs))
}
