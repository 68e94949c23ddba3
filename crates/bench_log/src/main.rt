//! Measures log files. `bench_log BATCHES PAYMENTS` commits that many batches of so many Payments each, 600,000 at most
//! in all, and appends them to a disk in memory and to the file `log-bench` of the folder that it runs in, which is not
//! to be there and is removed at the end. It prints how many bytes a file has, and what appending costs, a file's syncs
//! apart, what `scan` does, and a plain copy of the same bytes. With no words it does nothing.
#![tactic(auto)]

ghost use Rattle.std.specs.Prelude.{◌≡◌, [], IfOk};
ghost use Rattle.book.specs.Parts.{IsFresh, IsOpenedAs, IsLedgerOf, loggers_of};

mod timed;

use crate::timed::Timed;
use anyhow::bail;
use book::{Parts, Run};
use log_disk::{Disk, FileDisk, Memory};
use log_scan::scan;
use money::Refusal;
use std::alloc::Global;
use std::marker::Brand;
use std::rt::{Clock, Env, Files};
use std::sync::Wait;
use std::time::Instant;
use std::{env, fs};
use tables::Scale;
use tests_one_logger::{Stage, parts};

/// The customers of a district, who pay in turn.
const CUSTOMERS: u32 = 100;

/// The file.
const PATH: &str = "log-bench";

/// How much is measured.
#[derive(Clone, Copy)]
struct Load {
    batches: u32,
    payments: u32,
}

/// Commits a batch of Payments, and appends it. Answers how many nanoseconds the append took.
fn append_one<K: Run, D: Disk + Drop, R: Wait + Clock>(
    rt: &R,
    alloc: Global,
    stage: &mut Stage<K, D>,
    payments: u32,
) -> anyhow::Result<u128> {
    for payment in 0..payments {
        stage.pay(rt, alloc, payment % CUSTOMERS + 1, 100)?;
    }
    stage.advance()?;
    let batch = stage.take(rt);
    let start = Instant::now(rt)?;
    stage.append(&batch)?;
    Ok(start.elapsed(rt)?.as_nanos())
}

fn append_all<K: Run, D: Disk + Drop, R: Wait + Clock>(
    rt: &R,
    alloc: Global,
    parts: Parts,
    disk: D,
    load: Load,
) -> anyhow::Result<u128>
    requires run { IsOpenedAs parts K.run }
    requires ledger { IsLedgerOf parts K.name K.parts }
    requires loggers { loggers_of parts ≡ 1 }
    requires empty { D.is_modelled → D.seen disk ≡ [] }
{
    let mut stage = Stage::<K, D>::open(alloc, parts, disk)?;
    let mut nanos: u128 = 0;
    for _ in 0..load.batches {
        nanos = nanos.saturating_add(append_one(rt, alloc, &mut stage, load.payments)?);
    }
    Ok(nanos)
}

fn scaled<R: Wait>(rt: &R, alloc: Global) -> Result<Parts, Refusal>
    ensures fresh { IfOk result IsFresh }
    ensures loggers { IfOk result (λ parts. loggers_of parts ≡ 1) }
{
    parts(
        rt,
        alloc,
        Scale::new(1, 10, CUSTOMERS, 1_000, CUSTOMERS, 600_000)?,
    )
}

/// How many nanoseconds the appends to a new file on this empty disk take.
fn cost<D: Disk + Drop, R: Wait + Clock + AllocGlobal>(
    rt: &R,
    disk: D,
    load: Load,
) -> anyhow::Result<u128>
    requires { D.is_modelled → D.seen disk ≡ [] }
{
    let parts = scaled(rt, rt.alloc())?;
    append_all::<Brand, D, R>(rt, rt.alloc(), parts, disk, load)
}

/// Prints what so many bytes cost.
fn print_cost<R: Print>(rt: &R, name: &str, bytes: u64, nanos: u128) -> anyhow::Result<()> {
    let speed = u128::from(bytes) * 1_000 / nanos.max(1);
    println!(rt; "{name}: {} us, {speed} MB/s", nanos / 1_000)?;
    Ok(())
}

/// What scanning the file on a disk takes, in nanoseconds, and how many bodies it has.
fn scan_cost<D: Disk, R: Clock + AllocGlobal>(
    rt: &R,
    disk: &mut D,
) -> anyhow::Result<(u128, usize)> {
    let start = Instant::now(rt)?;
    let (_, bodies) = scan(rt.alloc(), disk)?;
    let nanos = start.elapsed(rt)?.as_nanos();
    Ok((nanos, bodies.len()))
}

fn copy_cost<R: Clock + AllocGlobal>(rt: &R, bytes: &[u8]) -> anyhow::Result<u128> {
    let mut copy = Vec::new(rt.alloc());
    copy.reserve(bytes.len())?;
    let start = Instant::now(rt)?;
    copy.extend_from_slice(bytes)?;
    Ok(start.elapsed(rt)?.as_nanos())
}

/// Measures a disk in memory. Answers how many bytes the file has.
fn in_memory<R: Wait + Clock + AllocGlobal + Print>(rt: &R, load: Load) -> anyhow::Result<u64> {
    let mut memory = Memory::new(rt.alloc());
    let appends = cost(rt, &mut memory, load)?;
    let (scanned, bodies) = scan_cost(rt, &mut memory)?;
    let bytes = memory.bytes().len() as u64;
    println!(rt; "{bytes} bytes, {bodies} bodies")?;
    print_cost(rt, "append to memory", bytes, appends)?;
    print_cost(rt, "scan of memory", bytes, scanned)?;
    print_cost(rt, "plain copy", bytes, copy_cost(rt, memory.bytes())?)?;
    Ok(bytes)
}

/// Measures a file of so many bytes.
fn in_file<R: Wait + Clock + AllocGlobal + Print + Files<File = fs::File>>(
    rt: &R,
    load: Load,
    bytes: u64,
) -> anyhow::Result<()> {
    let mut disk = Timed::new(rt, FileDisk::create(rt, PATH)?);
    let appends = cost(rt, &mut disk, load)?;
    let (scanned, _) = scan_cost(rt, &mut disk)?;
    let syncs = disk.syncs();
    print_cost(
        rt,
        "append to a file, its syncs apart",
        bytes,
        appends.saturating_sub(syncs),
    )?;
    print_cost(rt, "syncs", bytes, syncs)?;
    print_cost(rt, "scan of a file", bytes, scanned)?;
    fs::remove_file(rt, PATH)?;
    Ok(())
}

/// What the program's words ask for.
fn asked<R: Env + AllocGlobal>(rt: &R) -> anyhow::Result<Option<Load>> {
    let mut words = env::args(rt)?.skip(1);
    let (Some(batches), Some(payments)) = (words.next(), words.next()) else {
        return Ok(None);
    };
    Ok(Some(Load {
        batches: batches.parse()?,
        payments: payments.parse()?,
    }))
}

fn main(rt: HostRuntime) -> anyhow::Result<()> {
    let Some(load) = asked(&rt)? else {
        return Ok(());
    };
    if u64::from(load.batches) * u64::from(load.payments) > 600_000 {
        bail!("at most 600,000 Payments");
    }
    let bytes = in_memory(&rt, load)?;
    in_file(&rt, load, bytes)
}
