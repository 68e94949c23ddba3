//! The report that ends a script: what was committed, and which consistency conditions hold.
ghost use Rattle.std.specs.Prelude.{◌≡◌, ◌++◌, ℕ, Some, List, IfOk, OnOk, OnErr, IfErr, string_bytes};
ghost use Rattle.std.specs.Option.{ForSome};
ghost use Rattle.program_script_text.specs.Report.{report_text, first_verdicts, last_verdicts, verdict_text, verdicts};

use conditions::Report;
use money::Refusal;
use std::alloc::{AllocError, Global};
use std::fmt::Display;

/// Appends the report, each of its lines with a line feed: how many transactions were committed, and then
/// for each condition (TPC-C 3.3.2) whether it holds, as `C1 ok`, or the least key that breaks it, as
/// `C9 broken 1 1`. Refuses only where memory runs out, and then `out` is as before.
pub fn print_report(commits: u64, report: &Report, out: &mut String) -> Result<(), Refusal>
    ensures ok { OnOk result
        (string_bytes out.new ≡ string_bytes out.old ++ report_text commits report.now) }
    ensures err { OnErr result (string_bytes out.new ≡ string_bytes out.old) }
    ensures memory { IfErr result (λ refusal. refusal ≡ Refusal.OutOfMemory) }
{
    let text = format_report(*out.allocator(), commits, report)?;
    out.push_str(text.as_str())?;
    Ok(())
}

fn format_report(alloc: Global, commits: u64, report: &Report) -> Result<String, AllocError>
    ensures { IfOk result (λ text. string_bytes text ≡ report_text commits report.now) }
{
    let mut text = format!(in alloc; "commits {commits}\n")?;
    print_verdicts(report, &mut text)?;
    Ok(text)
}

/// Appends for each condition (TPC-C 3.3.2) a line on whether it holds, as `print_report` does. Where memory runs out a
/// beginning of them may stand there.
pub fn print_verdicts(report: &Report, out: &mut String) -> Result<(), AllocError>
    ensures { OnOk result (string_bytes out.new ≡ string_bytes out.old ++ verdicts report.now) }
{
    print_first_verdicts(report, out)?;
    print_last_verdicts(report, out)?;
    Ok(())
}

fn print_first_verdicts(report: &Report, out: &mut String) -> Result<(), AllocError>
    ensures { OnOk result
        (string_bytes out.new ≡ string_bytes out.old ++ first_verdicts report.now) }
{
    print_verdict(1, report.condition_1, out)?;
    print_verdict(2, report.condition_2, out)?;
    print_verdict(3, report.condition_3, out)?;
    print_verdict(4, report.condition_4, out)?;
    print_verdict(5, report.condition_5, out)?;
    print_verdict(6, report.condition_6, out)?;
    Ok(())
}

fn print_last_verdicts(report: &Report, out: &mut String) -> Result<(), AllocError>
    ensures { OnOk result
        (string_bytes out.new ≡ string_bytes out.old ++ last_verdicts report.now) }
{
    print_verdict(7, report.condition_7, out)?;
    print_verdict(8, report.condition_8, out)?;
    print_verdict(9, report.condition_9, out)?;
    print_verdict(10, report.condition_10, out)?;
    print_verdict(12, report.condition_12, out)?;
    Ok(())
}

// The line of one condition. A key prints the text that its type states.
fn print_verdict<K: Display + Copy>(
    condition: u32,
    broken: Option<K>,
    out: &mut String,
) -> Result<(), AllocError>
    ensures { (key_text : K → List ℕ) → ForSome broken (λ key. K.output key ≡ Some (key_text key))
        → OnOk result (string_bytes out.new
        ≡ string_bytes out.old ++ verdict_text key_text condition broken) }
{
    match broken {
        None => writeln!(out, "C{condition} ok"),
        Some(key) => writeln!(out, "C{condition} broken {key}"),
    }
}
