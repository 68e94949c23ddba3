//! The subcommand `run`: terminals and loggers in threads, with a log file a logger.
ghost use Rattle.std.specs.Prelude.{◌≡◌, ℕ, List, Option, length, map, IfOk, IfErr};
ghost use Rattle.tables.specs.Database.{Database};
ghost use Rattle.population.specs.Initial.{initial};
ghost use Rattle.program_run.specs.Told.{IsDriven, IsRanDurably};
ghost use Rattle.program_live.specs.Breaks.{IsToldAsHalted};
ghost use Rattle.program_files.specs.Causes.{cause_of};
ghost use Rattle.program_live.specs.Live.{IsUnfinishedRun};

use crate::ended::ended;
use crate::guarded::{GuardedDisk, guarded};
use book::Parts;
use conditions::Report;
use log_disk::{Disk, FileDisk};
use logfile::LogFile;
use money::Refusal;
use population::Population;
use program_files::{Fault, NewFiles, Purpose, broken_off, give_names};
use program_options::{LogFiles, RunOptions};
use program_run::{Alarm, Beat, Broken, Driven, RunPlan, Screen, Stopwatch, Waits, created, drive};
use run_threads::Paced;
use std::alloc::{AllocError, Global};
use std::fs::File;
use std::io::Write;
use std::rt::Files;
use std::sync::Wait;
use std::thread::Threads;
use std::time::{Clock, Duration};
use tables::{Scale, record_count};

/// How long an epoch is, in milliseconds (Silo, section 4.1: 40): what an acknowledgement waits for, beside a batch and
/// its syncs.
const INTERVAL: u64 = 5;

/// How far apart the turns of a logger that follows the clock begin at the most, in milliseconds: it takes them even
/// where E stays, as in the last epoch.
const LONGEST: u64 = 100;

/// How many records take about a second to be made.
const MANY_RECORDS: u32 = 4_000_000;

/// Runs terminals over a population, with new log files, and writes what came of it. Answers the report of the
/// committed tables. How far the run is goes to the screen, if there is one.
pub fn run_anew<
    T: Wait + Threads + Clock + Files<File = File> + Sync,
    W: Write,
    S: Write + Send + Drop,
>(
    rt: &T,
    alloc: Global,
    population: Population,
    options: &RunOptions,
    output: &mut W,
    screen: Option<S>,
) -> Result<Report, Fault>
    ensures ran { IfOk result (IsRanDurably 0 (initial population) options.now.terminals options.now.count
        (W.contents output.old) (W.contents output.new)) }
    ensures failed { IfErr result (λ fault. IsUnfinishedRun options.now (initial population)
        (W.contents output.old) (W.contents output.new) fault.refusal (cause_of fault)) }
{
    let files = &options.files;
    let waits = waits_for(alloc, &screen)?;
    let alarms = Alarm::for_loggers(alloc, files.loggers as usize)?;
    let mut made = match NewFiles::make(rt, alloc, files) {
        Ok(made) => made,
        Err(fault) => return Err(fault),
    };
    let told = Told {
        screen,
        waits: waits.as_ref(),
        alarms: &alarms,
    };
    match run_on(rt, alloc, population, options, &mut made, output, told) {
        Ok(driven) => ended(alloc, files, Purpose::Create, driven, &made.disks),
        Err(halt) => Err(halted(rt, alloc, options, halt, &made)),
    }
}

/// What of a run on new log files was refused.
#[derive(Debug, Drop)]
pub(crate) enum Halt {
    /// Its start, before any input ran.
    Start(Fault),
    /// The run itself, or what is told of it.
    Run(Broken),
}

/// The fault of a run that was refused. Before any input ran, its log files are removed: nothing was acknowledged.
fn halted<T: Files<File = File>>(
    rt: &T,
    alloc: Global,
    options: &RunOptions,
    halt: Halt,
    made: &NewFiles,
) -> Fault
    ensures { (t0 : Database) (old new : Option (List ℕ)) → IsToldAsHalted options.now t0 old new halt
        → IsUnfinishedRun options.now t0 old new result.refusal (cause_of result) }
{
    match halt {
        Halt::Start(fault) => {
            made.remove(rt);
            fault
        }
        Halt::Run(broken) => {
            let (files, purpose) = (&options.files, Purpose::Create);
            let fault = broken_off(alloc, files, purpose, Refusal::from(broken), &made.disks);
            if let Broken::Unrun(_) = broken {
                made.remove(rt);
            }
            fault
        }
    }
}

/// The screen of a run, if there is one, and what it shows.
#[derive(Drop)]
struct Told<'a, S: Write + Drop> {
    screen: Option<S>,
    waits: Option<&'a Waits>,
    alarms: &'a [Alarm],
}

/// Runs terminals over a population on new log files, once these have their headers and their names.
fn run_on<T: Wait + Threads + Clock + Files<File = File> + Sync, W: Write, S: Write + Send + Drop>(
    rt: &T,
    alloc: Global,
    population: Population,
    options: &RunOptions,
    made: &mut NewFiles,
    output: &mut W,
    told: Told<'_, S>,
) -> Result<Driven, Halt>
    requires { length made.old.disks.items ≡ options.now.files.loggers }
    ensures ran { IfOk result (IsDriven 0 (initial population) options.now.terminals options.now.count
        (W.contents output.old) (W.contents output.new)) }
    ensures halted { IfErr result (IsToldAsHalted options.now (initial population)
        (W.contents output.old) (W.contents output.new)) }
{
    let scale = population.scale();
    let (gates, slots) = match outfit(rt, alloc, scale, options, &mut made.disks, told) {
        Ok(outfit) => outfit,
        Err(_) => return Err(Halt::Start(Fault::of(Refusal::OutOfMemory))),
    };
    let logs = match created(alloc, scale, population.seed(), slots) {
        Ok(logs) => logs,
        Err(refusal) => return Err(Halt::Run(Broken::Unrun(refusal))),
    };
    match give_names(rt, alloc, &options.files, &made.names) {
        Ok(()) => {}
        Err(fault) => return Err(Halt::Start(fault)),
    }
    let (loggers, terminals) = (logs.len() as u16, options.terminals as u16);
    let parts = match Parts::new(rt, alloc, population, loggers, terminals) {
        Ok(parts) => parts,
        Err(refusal) => return Err(Halt::Run(Broken::Unrun(refusal))),
    };
    match drive(rt, alloc, parts, logs, gates, &plan_of(options), output) {
        Ok(driven) => Ok(driven),
        Err(broken) => Err(Halt::Run(broken)),
    }
}

/// What terminals and loggers of a run on new log files are given: gates, and disks with their beats.
fn outfit<'a, C: Clock + Wait, S: Write + Drop>(
    clock: &'a C,
    alloc: Global,
    scale: Scale,
    options: &'a RunOptions,
    disks: &'a mut [FileDisk],
    told: Told<'a, S>,
) -> Result<
    (
        Vec<Stopwatch<'a, C>>,
        Vec<Paced<GuardedDisk<'a, 'a>, Beat<'a, C, S>>>,
    ),
    AllocError,
>
    ensures gates { IfOk result (λ outfit. length outfit.0.items ≡ options.now.terminals) }
    ensures slots { IfOk result (λ outfit. length outfit.1.items ≡ length disks.old) }
{
    let gates = gates(clock, alloc, options.terminals as u16, told.waits)?;
    let mut screen = screen_of(
        clock,
        alloc,
        told.screen,
        told.waits,
        told.alarms,
        &options.files,
    );
    announce_records(&mut screen, scale);
    let slots = slots(clock, alloc, guarded(alloc, disks, told.alarms)?, screen)?;
    Ok((gates, slots))
}

/// The terminals of a run with these options, and what they do.
pub(crate) fn plan_of(options: &RunOptions) -> RunPlan
    ensures { result ≡ record {
      terminals = options.now.terminals;
      inputs = options.now.count;
      seed = options.now.seed;
    } }
{
    RunPlan {
        terminals: options.terminals as u16,
        inputs: options.count,
        seed: options.seed,
    }
}

/// What the terminals tell of what their commits wait, if there is a screen that shows it.
pub(crate) fn waits_for<S>(alloc: Global, screen: &Option<S>) -> Result<Option<Waits>, AllocError> {
    match screen {
        Some(_) => Ok(Some(Waits::new(alloc)?)),
        None => Ok(None),
    }
}

/// What terminals are given: each a gate that takes the time of its commits, if that is to be told.
pub(crate) fn gates<'a, C: Clock>(
    clock: &'a C,
    alloc: Global,
    terminals: u16,
    waits: Option<&'a Waits>,
) -> Result<Vec<Stopwatch<'a, C>>, AllocError>
    ensures { IfOk result (λ gates. length gates.items ≡ terminals) }
{
    let mut gates = Vec::new(alloc);
    for _ in 0..terminals {
        gates.push(Stopwatch::new(alloc, clock, waits))?;
    }
    Ok(gates)
}

/// What loggers of new log files are given: each a disk, and its beat.
fn slots<'a, D: Disk + Drop, C: Clock + Wait, S: Write + Drop>(
    clock: &'a C,
    alloc: Global,
    disks: Vec<D>,
    screen: Option<Screen<'a, S>>,
) -> Result<Vec<Paced<D, Beat<'a, C, S>>>, AllocError>
    ensures { IfOk result (λ slots. length slots.items ≡ length disks.items) }
{
    let mut screen = screen;
    let mut slots = Vec::new(alloc);
    for disk in disks {
        let pace = beat_of(clock, slots.len(), &mut screen);
        slots.push(Paced { inner: disk, pace })?;
    }
    Ok(slots)
}

/// What loggers of open log files are given: each its file, and its beat.
pub(crate) fn paced<'a, D: Disk + Drop, C: Clock + Wait, S: Write + Drop>(
    clock: &'a C,
    alloc: Global,
    files: Vec<LogFile<D>>,
    screen: Option<Screen<'a, S>>,
) -> Result<Vec<Paced<LogFile<D>, Beat<'a, C, S>>>, AllocError>
    ensures { IfOk result (λ logs. map (λ log. log.inner) logs.items ≡ files.items) }
{
    let mut screen = screen;
    let mut logs = Vec::new(alloc);
    for file in files {
        let pace = beat_of(clock, logs.len(), &mut screen);
        logs.push(Paced { inner: file, pace })?;
    }
    Ok(logs)
}

/// The beat of the logger behind so many others: the first, which has the clock, gets the screen, if there is one; all
/// others follow it.
fn beat_of<'a, C: Clock + Wait, S: Write + Drop>(
    clock: &'a C,
    others: usize,
    screen: &mut Option<Screen<'a, S>>,
) -> Beat<'a, C, S> {
    let interval = if others == 0 { INTERVAL } else { LONGEST };
    Beat::new(clock, Duration::from_millis(interval), screen.take())
}

/// Shows at once that records are made, where that takes long.
fn announce_records<'a, S: Write>(screen: &mut Option<Screen<'a, S>>, scale: Scale) {
    if let Some(screen) = screen {
        if record_count(&scale) >= MANY_RECORDS {
            screen.announce("making records");
        }
    }
}

/// The screen of a run on these log files, which its first logger's beat gets.
pub(crate) fn screen_of<'a, C: Clock, S: Write + Drop>(
    clock: &C,
    alloc: Global,
    screen: Option<S>,
    waits: Option<&'a Waits>,
    alarms: &'a [Alarm],
    files: &'a LogFiles,
) -> Option<Screen<'a, S>> {
    match (screen, clock.monotonic(), waits) {
        (Some(screen), Ok(now), Some(waits)) => {
            let folder = files.folder.as_str();
            Some(Screen::new(alloc, screen, now, waits, alarms, folder))
        }
        _ => None,
    }
}
