//! Telling what came of a run.
ghost use Rattle.std.specs.Prelude.{◌≡◌, ◌⊎◌, ◌++◌, ℕ, List, IfOk, IfErr, OnOk, string_bytes};
ghost use Rattle.std.specs.Io.KnownBytes.{Appends};
ghost use Rattle.money.specs.declared.refusal.Refusal.TheVariants.{OutOfMemory, Device};
ghost use Rattle.book.specs.History.{replay};
ghost use Rattle.program_run.specs.Told.{IsTold, IsCutShort, inputs_lines, replies_lines, run_text};

use book::Run;
use conditions::Report;
use log_disk::Disk;
use money::Refusal;
use program_script_text::print_verdicts;
use program_streams::write_text;
use run_threads::{Counts, Outcome};
use std::alloc::{AllocError, Global};
use std::io::Write;

/// Writes what came of a run: `commits 96`, `rollbacks 1`, `gaveup 0`, `refused 3`, `durable 41` and `acknowledged 96`,
/// and then for each condition (TPC-C 3.3.2) a line as `C1 ok`. Costs what `Closed::report` does, and answers that
/// report.
///
/// # Errors
///
/// `Device` where the writer fails, `OutOfMemory` where the text has no room. A beginning of the text was written
/// then.
pub fn ran<K: Run, D: Disk, W: Write>(
    alloc: Global,
    outcome: &mut Outcome<K, D>,
    writer: &mut W,
) -> Result<Report, Refusal>
    ensures same { outcome.new ≡ outcome.old }
    ensures told { IfOk result (IsTold (replay K.run.first outcome.old.closed) outcome.old.counts
        (W.contents writer.old) (W.contents writer.new)) }
    ensures cut_short { IfErr result (IsCutShort (replay K.run.first outcome.old.closed) outcome.old.counts
        (W.contents writer.old) (W.contents writer.new)) }
{
    let report = outcome.closed.report(alloc)?;
    match write_run(alloc, &outcome.counts, &report, writer) {
        Ok(()) => Ok(report),
        Err(refusal) => Err(refusal),
    }
}

/// Writes the text of a run.
fn write_run<W: Write>(
    alloc: Global,
    counts: &Counts,
    report: &Report,
    writer: &mut W,
) -> Result<(), Refusal>
    ensures whole { OnOk result
        (Appends (W.contents writer.old) (W.contents writer.new) (run_text counts.now report.now)) }
    ensures beginning { IfErr result (λ refusal. (front rest : List ℕ)
        × (front ++ rest ≡ run_text counts.now report.now)
        × Appends (W.contents writer.old) (W.contents writer.new) front
        × ((refusal ≡ OutOfMemory) ⊎ (refusal ≡ Device))) }
{
    let text = text_of(alloc, counts, report)?;
    write_text(writer, text.as_bytes())?;
    Ok(())
}

/// The text of a run.
fn text_of(alloc: Global, counts: &Counts, report: &Report) -> Result<String, AllocError>
    ensures { IfOk result (λ text. string_bytes text ≡ run_text counts.now report.now) }
{
    let mut text = inputs_text(alloc, counts)?;
    print_replies(counts, &mut text)?;
    print_verdicts(report, &mut text)?;
    Ok(text)
}

/// The lines of what came of the inputs.
fn inputs_text(alloc: Global, counts: &Counts) -> Result<String, AllocError>
    ensures { IfOk result (λ text. string_bytes text ≡ inputs_lines counts.now) }
{
    let Counts {
        commits,
        rollbacks,
        gave_up,
        refused,
        ..
    } = *counts;
    format!(in alloc;
        "commits {commits}\nrollbacks {rollbacks}\ngaveup {gave_up}\nrefused {refused}\n"
    )
}

/// Appends the lines of what is durable, and which replies were released for that.
fn print_replies(counts: &Counts, out: &mut String) -> Result<(), AllocError>
    ensures { OnOk result (string_bytes out.new ≡ string_bytes out.old ++ replies_lines counts.now) }
{
    let Counts {
        durable,
        acknowledged,
        ..
    } = *counts;
    writeln!(out, "durable {durable}\nacknowledged {acknowledged}")
}
