//! Recovering log files, and telling what they recover to.
ghost use Rattle.std.specs.Prelude.{◌≡◌, ◌⊎◌, ◌++◌, ℕ, List, map, IfOk, IfErr, OnOk};
ghost use Rattle.std.specs.Io.KnownBytes.{Appends};
ghost use Rattle.money.specs.declared.refusal.Refusal.TheVariants.{OutOfMemory, Device};
ghost use Rattle.log_disk.specs.Calls.{OnlyReads};
ghost use Rattle.population.specs.Initial.{initial, seed_of};
ghost use Rattle.program_script_text.specs.Report.{report_text};
ghost use Rattle.program_recovery.specs.Text.{recovery_text};
ghost use Rattle.program_recovery.specs.Told.{IsShown, IsChecked, IsRefused, Shows, Reports};

use crate::text::text_of;
use crate::watching::{Manner, recover_shown};
use conditions::{Report, check};
use log_disk::Disk;
use money::Refusal;
use population::Population;
use program_script_text::print_report;
use program_streams::write_text;
use recover::Recovered;
use std::alloc::Global;
use std::io::Write;
use std::sync::Wait;
use std::thread::Threads;
use std::time::Clock;

/// Recovers the tables that log files hold, as `recover_with` does, and writes the durable epoch, the number of
/// commits, and the rows of the warehouses and districts: `durable 5`, `commits 2`, then for each warehouse `warehouse
/// 1 ytd 202.00` and, for each of its districts, `district 1 1 ytd 102.00 next 11`. A recovery of more than a second
/// shows on the screen how far it is, if there is one. May wait, for its threads.
///
/// # Errors
///
/// As `recover_with`, and then nothing is written; and, where no disk fails, `Device` where the writer fails,
/// `OutOfMemory` where the text has no room.
pub fn recovered<
    R: Threads + Wait + Clock + Sync,
    D: Disk + Send,
    W: Write,
    S: Write + Send + Drop,
>(
    rt: &R,
    alloc: Global,
    population: &Population,
    disks: &mut [D],
    writer: &mut W,
    manner: Manner<S>,
) -> Result<Recovered, Refusal>
    ensures shown { IfOk result (λ r. (strings : List (List ℕ)) × (D.is_modelled → strings ≡ map D.seen disks.old)
        × IsShown (initial population.now) (seed_of population.now) strings
        (W.contents writer.old) (W.contents writer.new) r) }
    ensures refused { IfErr result (λ refusal. (strings : List (List ℕ))
        × (D.is_modelled → strings ≡ map D.seen disks.old)
        × IsRefused (initial population.now) (seed_of population.now) strings Shows
        (map D.failed disks.old) (map D.failed disks.new) (W.contents writer.old) (W.contents writer.new) refusal) }
    ensures not_failed { OnOk result (map D.failed disks.new ≡ map D.failed disks.old) }
    ensures reads { OnlyReads D.is_modelled (map D.seen) (map D.story) disks.old disks.new }
{
    let found = recover_shown(rt, alloc, population, disks, manner)?;
    match show(alloc, &found, writer) {
        Ok(()) => Ok(found),
        Err(refusal) => return Err(refusal),
    }
}

/// Recovers the tables that log files hold, as `recover_with` does, and writes the report of the consistency
/// conditions on them: `commits 2`, then for each condition (TPC-C 3.3.2) a line as `C1 ok`. Shows how far it is, as
/// `recovered` does. May wait, for its threads.
///
/// # Errors
///
/// As `recover_with`, and then nothing is written; and, where no disk fails, `Device` where the writer fails,
/// `OutOfMemory` where check or text have no room.
pub fn checked<R: Threads + Wait + Clock + Sync, D: Disk + Send, W: Write, S: Write + Send + Drop>(
    rt: &R,
    alloc: Global,
    population: &Population,
    disks: &mut [D],
    writer: &mut W,
    manner: Manner<S>,
) -> Result<Report, Refusal>
    ensures checked { IfOk result (λ report. (strings : List (List ℕ))
        × (D.is_modelled → strings ≡ map D.seen disks.old)
        × IsChecked (initial population.now) (seed_of population.now) strings
        (W.contents writer.old) (W.contents writer.new) report) }
    ensures refused { IfErr result (λ refusal. (strings : List (List ℕ))
        × (D.is_modelled → strings ≡ map D.seen disks.old)
        × IsRefused (initial population.now) (seed_of population.now) strings Reports
        (map D.failed disks.old) (map D.failed disks.new) (W.contents writer.old) (W.contents writer.new) refusal) }
    ensures not_failed { OnOk result (map D.failed disks.new ≡ map D.failed disks.old) }
    ensures reads { OnlyReads D.is_modelled (map D.seen) (map D.story) disks.old disks.new }
{
    let recovered = recover_shown(rt, alloc, population, disks, manner)?;
    let report = check(alloc, &recovered.tables)?;
    match report_on(alloc, recovered.commits, &report, writer) {
        Ok(()) => Ok(report),
        Err(refusal) => return Err(refusal),
    }
}

/// Writes what was recovered.
fn show<W: Write>(alloc: Global, recovered: &Recovered, writer: &mut W) -> Result<(), Refusal>
    ensures whole { OnOk result
        (Appends (W.contents writer.old) (W.contents writer.new) (recovery_text recovered.now)) }
    ensures beginning { IfErr result (λ refusal. (front rest : List ℕ)
        × (front ++ rest ≡ recovery_text recovered.now)
        × Appends (W.contents writer.old) (W.contents writer.new) front
        × ((refusal ≡ OutOfMemory) ⊎ (refusal ≡ Device))) }
{
    let text = text_of(alloc, recovered)?;
    write_text(writer, text.as_bytes())
}

/// Writes a report.
fn report_on<W: Write>(
    alloc: Global,
    commits: u64,
    report: &Report,
    writer: &mut W,
) -> Result<(), Refusal>
    ensures whole { OnOk result
        (Appends (W.contents writer.old) (W.contents writer.new) (report_text commits report.now)) }
    ensures beginning { IfErr result (λ refusal. (front rest : List ℕ)
        × (front ++ rest ≡ report_text commits report.now)
        × Appends (W.contents writer.old) (W.contents writer.new) front
        × ((refusal ≡ OutOfMemory) ⊎ (refusal ≡ Device))) }
{
    let mut text = String::new(alloc);
    print_report(commits, report, &mut text)?;
    write_text(writer, text.as_bytes())
}
