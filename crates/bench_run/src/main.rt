//! Measures runs. `bench_run memory|files WAREHOUSES TERMINALS LOGGERS INPUTS INTERVAL` runs terminals in threads
//! beside loggers, as `tpcc run` does, at the usual mix, so many inputs a terminal and so many milliseconds between
//! the turns of the first logger, which the others follow, on disks in memory or on the files `run-bench-L` of the
//! folder that it runs in, which aren't to be there and are removed at the end. It prints commits a second and how
//! long a commit waits for its acknowledgement, and in a second line how often a commit's input was tried, on average,
//! by kind. `bench_run session WAREHOUSES TERMINALS INPUTS` commits the same inputs one after another, by one terminal
//! without logs that has the book to itself. With no words it does nothing.
#![tactic(auto)]

ghost use Rattle.std.specs.Prelude.{◌≡◌, ◌<◌, ◌≤◌, [], length, IfOk};
ghost use Rattle.std.specs.List.{All};
ghost use Rattle.log_disk.specs.Memory.{replayed_calls};

mod gauge;
mod single;
mod tries;

use crate::gauge::{Dial, Gauge};
use crate::single::session;
use crate::tries::{Counter, Tries};
use anyhow::bail;
use book::Parts;
use log_disk::{Disk, FileDisk, Memory};
use money::Refusal;
use population::Population;
use program_run::{RunPlan, created, drive};
use run_threads::{Pace, Paced};
use std::alloc::Global;
use std::rt::{Clock, Env, Files};
use std::sync::Wait;
use std::thread::Threads;
use std::time::Duration;
use std::{env, fs};
use tables::Scale;

/// The draws of the decks.
pub(crate) const SEED: u64 = 1;

/// What is run.
#[derive(Clone, Copy)]
struct Load {
    warehouses: u32,
    terminals: u16,
    loggers: u16,
    inputs: u32,
    interval: u64,
}

/// The default rows of so many warehouses, with room for these inputs.
pub(crate) fn population(alloc: Global, warehouses: u32) -> Result<Population, Refusal> {
    let scale = Scale::new(warehouses, 10, 100, 1_000, 8_000, 600_000)?;
    Population::plain(alloc, scale)
}

/// The file of a logger.
fn path(alloc: Global, logger: u16) -> Result<String, Refusal> {
    Ok(format!(in alloc; "run-bench-{logger}")?)
}

/// A new disk in memory for each logger, and its pace. The first has the dial.
fn memories<'a, C: Clock + Wait>(
    clock: &'a C,
    alloc: Global,
    dial: &'a Dial,
    load: Load,
) -> Result<Vec<Paced<Memory, Gauge<'a, C>>>, Refusal>
    ensures count { IfOk result (λ slots. length slots.items ≡ load.loggers) }
    ensures empty { IfOk result (λ slots. All (λ slot. (replayed_calls slot.inner.calls).bytes ≡ []) slots.items) }
{
    let mut slots = Vec::new(alloc);
    for logger in 0..load.loggers {
        slots.push(Paced {
            inner: Memory::new(alloc),
            pace: pace(clock, dial, load, logger),
        })?;
    }
    Ok(slots)
}

/// A new file for each logger, and its pace. The first has the dial.
fn files<'a, C: Clock + Wait + Files<File = fs::File>>(
    rt: &'a C,
    alloc: Global,
    dial: &'a Dial,
    load: Load,
) -> Result<Vec<Paced<FileDisk, Gauge<'a, C>>>, Refusal>
    ensures count { IfOk result (λ slots. length slots.items ≡ load.loggers) }
{
    let mut slots = Vec::new(alloc);
    for logger in 0..load.loggers {
        slots.push(Paced {
            inner: FileDisk::create(rt, path(alloc, logger)?.as_str())?,
            pace: pace(rt, dial, load, logger),
        })?;
    }
    Ok(slots)
}

fn pace<'a, C: Clock + Wait>(
    clock: &'a C,
    dial: &'a Dial,
    load: Load,
    logger: u16,
) -> Gauge<'a, C> {
    Gauge::new(
        clock,
        Duration::from_millis(load.interval),
        (logger == 0).then_some(dial),
    )
}

/// A gate for each terminal.
fn gates<'a>(alloc: Global, tries: &'a Tries, terminals: u16) -> Result<Vec<Counter<'a>>, Refusal>
    ensures { IfOk result (λ gates. length gates.items ≡ terminals) }
{
    let mut gates = Vec::new(alloc);
    for _ in 0..terminals {
        gates.push(Counter::new(alloc, tries))?;
    }
    Ok(gates)
}

/// Runs the load on these disks, and prints what was seen.
fn run_on<
    D: Disk + Send + Drop,
    P: Pace + Send + Drop,
    R: Threads + Wait + Sync + Print + AllocGlobal,
>(rt: &R, slots: Vec<Paced<D, P>>, dial: &Dial, load: Load) -> anyhow::Result<()>
    requires loggers { (0 < length slots.items) × (length slots.items ≤ 8) }
    requires terminals { (0 < load.terminals) × (load.terminals ≤ 16) }
    requires empty { D.is_modelled → All (λ slot. D.seen slot.inner ≡ []) slots.items }
{
    let plan = RunPlan {
        terminals: load.terminals,
        inputs: load.inputs,
        seed: SEED,
    };
    let population = population(rt.alloc(), load.warehouses)?;
    let mut told = Vec::new(rt.alloc());
    let tries = Tries::new();
    let gates = gates(rt.alloc(), &tries, load.terminals)?;
    let logs = created(rt.alloc(), population.scale(), population.seed(), slots)?;
    let parts = Parts::new(
        rt,
        rt.alloc(),
        population,
        logs.len() as u16,
        load.terminals,
    )?;
    drive(rt, rt.alloc(), parts, logs, gates, &plan, &mut told).map_err(Refusal::from)?;
    let seen = dial.seen();
    println!(rt;
        "commits {} a second {} latency {} us",
        seen.commits,
        seen.speed(),
        seen.latency()
    )?;
    println!(rt; "tries a commit{}", tries.text(rt.alloc())?)?;
    Ok(())
}

fn in_memory<R: Threads + Wait + Clock + Sync + Print + AllocGlobal>(
    rt: &R,
    load: Load,
) -> anyhow::Result<()>
    requires loggers { (0 < load.loggers) × (load.loggers ≤ 8) }
    requires terminals { (0 < load.terminals) × (load.terminals ≤ 16) }
{
    let dial = Dial::new();
    let slots = memories(rt, rt.alloc(), &dial, load)?;
    run_on(rt, slots, &dial, load)
}

fn in_files<R: Threads + Wait + Clock + Sync + Print + AllocGlobal + Files<File = fs::File>>(
    rt: &R,
    load: Load,
) -> anyhow::Result<()>
    requires loggers { (0 < load.loggers) × (load.loggers ≤ 8) }
    requires terminals { (0 < load.terminals) × (load.terminals ≤ 16) }
{
    let dial = Dial::new();
    let slots = files(rt, rt.alloc(), &dial, load)?;
    run_on(rt, slots, &dial, load)?;
    for logger in 0..load.loggers {
        fs::remove_file(rt, path(rt.alloc(), logger)?.as_str())?;
    }
    Ok(())
}

/// The numbers behind the first word: of warehouses, terminals, loggers, inputs and milliseconds; of a session those of
/// warehouses, terminals and inputs.
fn numbers<R: Env + AllocGlobal>(rt: &R) -> anyhow::Result<Vec<u32>> {
    let mut numbers = Vec::new(rt.alloc());
    for word in env::args(rt)?.skip(2) {
        numbers.push(word.parse()?)?;
    }
    Ok(numbers)
}

fn load_of(numbers: &[u32]) -> anyhow::Result<Load>
    ensures loggers { IfOk result (λ load. (0 < load.loggers) × (load.loggers ≤ 8)) }
    ensures terminals { IfOk result (λ load. (0 < load.terminals) × (load.terminals ≤ 16)) }
{
    let &[warehouses, terminals, loggers, inputs, interval] = numbers else {
        bail!("memory and files want five numbers");
    };
    if !(1..=16).contains(&terminals) || !(1..=8).contains(&loggers) {
        bail!("1 to 16 terminals, 1 to 8 loggers");
    }
    Ok(Load {
        warehouses,
        terminals: terminals as u16,
        loggers: loggers as u16,
        inputs,
        interval: u64::from(interval),
    })
}

/// Measures what the first word names.
fn measure<R: Threads + Wait + Clock + Sync + Print + AllocGlobal + Files<File = fs::File>>(
    rt: &R,
    kind: &str,
    numbers: &[u32],
) -> anyhow::Result<()> {
    match kind {
        "memory" => in_memory(rt, load_of(numbers)?),
        "files" => in_files(rt, load_of(numbers)?),
        "session" => session(rt, numbers),
        _ => bail!("memory, files or session"),
    }
}

fn main(rt: HostRuntime) -> anyhow::Result<()> {
    let Some(kind) = env::args(&rt)?.nth(1) else {
        return Ok(());
    };
    let numbers = numbers(&rt)?;
    measure(&rt, kind.as_str(), numbers.as_slice())
}
