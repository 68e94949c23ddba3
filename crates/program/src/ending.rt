//! How the program ends.

ghost use Rattle.std.specs.Prelude.{◌++◌, OnOk, IsErr};
ghost use Rattle.std.specs.Io.KnownBytes.{Appends};
ghost use Rattle.program.specs.Status.{IsRefusedStatus, IsStatusOf, outcome_line, refusal_line, WritesBeginning};

use conditions::Report;
use itoa::Buffer;
use money::Refusal;
use program_streams::write_text;
use std::io::Write;

/// The exit status of a good end.
pub const GOOD: u8 = 0;

/// The exit status where a condition is broken, or where the run was refused.
pub const FAILED: u8 = 1;

/// The exit status of a command line that asks for nothing that can be done.
pub const USAGE_FAULT: u8 = 2;

/// Writes a refusal's line, as `9 Device`, and answers the exit status: 0 where all conditions hold, 1 where
/// one is broken or the run was refused, and 2 where the scale was. A failure of that write is left aside:
/// a beginning of the line is written then. Takes no memory.
pub fn finish<E: Write>(outcome: Result<&Report, Refusal>, errors: &mut E) -> u8
    ensures status { IsStatusOf outcome.entry result }
    ensures line { WritesBeginning (outcome_line outcome.entry) (E.contents errors.old) (E.contents errors.new) }
{
    match outcome {
        Ok(report) if report.is_good() => GOOD,
        Ok(_) => FAILED,
        Err(refusal) => finish_refused(refusal, "", errors),
    }
}

/// Writes a refusal's line, and then the one on what was wrong, and answers the exit status, as `finish` does.
pub(crate) fn finish_refused<E: Write>(refusal: Refusal, detail: &str, errors: &mut E) -> u8
    ensures status { IsRefusedStatus refusal result }
    ensures lines { WritesBeginning (refusal_line refusal ++ detail.now)
        (E.contents errors.old) (E.contents errors.new) }
{
    let _ = tell_refused(refusal, detail, errors);
    match refusal {
        Refusal::BadScale => USAGE_FAULT,
        _ => FAILED,
    }
}

/// Writes a refusal's line, and then the one on what was wrong.
fn tell_refused<E: Write>(refusal: Refusal, detail: &str, errors: &mut E) -> Result<(), Refusal>
    ensures { WritesBeginning (refusal_line refusal ++ detail.now) (E.contents errors.old) (E.contents errors.new) }
{
    write_refusal(refusal, errors)?;
    write_text(errors, detail.as_bytes())?;
    Ok(())
}

/// Writes a refusal's line.
fn write_refusal<E: Write>(refusal: Refusal, errors: &mut E) -> Result<(), Refusal>
    ensures whole { OnOk result (Appends (E.contents errors.old) (E.contents errors.new) (refusal_line refusal)) }
    ensures beginning { IsErr result
        → WritesBeginning (refusal_line refusal) (E.contents errors.old) (E.contents errors.new) }
{
    let mut digits = Buffer::new();
    write_text(errors, digits.format(refusal.number()).as_bytes())?;
    write_text(errors, b" ")?;
    write_text(errors, refusal.name().as_bytes())?;
    write_text(errors, b"\n")?;
    Ok(())
}
