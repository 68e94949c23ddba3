//! What a run comes to that was told whole: its report, or why commits of it aren't durable.
ghost use Rattle.std.specs.Prelude.{◌≡◌, ◌<◌, None, Some, IfErr, IfOk, IfSome};
ghost use Rattle.program_run.specs.declared.shortfall.Shortfall.{Shortfall as ShortfallValue};
ghost use Rattle.program_files.specs.Causes.{cause_of, cause_view, InLastEpoch, Unlogged};
ghost use Rattle.program_files.specs.Logs.{path_of};
ghost use Rattle.program_live.specs.Live.{IsShort};

use conditions::Report;
use log_disk::FileDisk;
use money::Refusal;
use program_files::{Cause, Fault, Purpose, broken_off, path};
use program_options::LogFiles;
use program_run::{Driven, Shortfall};
use std::alloc::Global;

/// The report of a run that was told whole, or its fault, where a logger had stopped, or commits of it aren't durable.
pub(crate) fn ended(
    alloc: Global,
    files: &LogFiles,
    purpose: Purpose,
    driven: Driven,
    disks: &[FileDisk],
) -> Result<Report, Fault>
    ensures whole { IfOk result (λ report. (report ≡ driven.report) × (driven.shortfall ≡ None)) }
    ensures short { IfErr result (λ fault. (shortfall : ShortfallValue) × (driven.shortfall ≡ Some shortfall)
        × (fault.refusal ≡ shortfall.refusal) × IfSome (cause_of fault) (IsShort purpose files.now fault.refusal
        shortfall.lost)) }
{
    match driven.shortfall {
        None => Ok(driven.report),
        Some(shortfall) => Err(fell_short(alloc, files, purpose, shortfall, disks)),
    }
}

/// The fault of a run whose commits aren't all durable. It tells the file of the logger that fell short, unless memory
/// is short.
fn fell_short(
    alloc: Global,
    files: &LogFiles,
    purpose: Purpose,
    shortfall: Shortfall,
    disks: &[FileDisk],
) -> Fault
    ensures refusal { result.refusal ≡ shortfall.refusal }
    ensures cause { IfSome (cause_of result) (IsShort purpose files.now shortfall.refusal shortfall.lost) }
{
    match shortfall.refusal {
        Refusal::OutOfMemory => Fault {
            refusal: shortfall.refusal,
            cause: unlogged(alloc, files, shortfall),
        },
        Refusal::EpochFull => Fault {
            refusal: shortfall.refusal,
            cause: in_last_epoch(alloc, files, shortfall.lost),
        },
        refusal => broken_off(alloc, files, purpose, refusal, disks),
    }
}

/// That a logger had no memory for its last batch.
fn unlogged(alloc: Global, files: &LogFiles, shortfall: Shortfall) -> Option<Cause>
    ensures { IfSome result (λ cause. (shortfall.logger < files.now.loggers)
        × (cause_view cause ≡ Unlogged (path_of files.now shortfall.logger) shortfall.lost)) }
{
    let logger = u32::from(shortfall.logger);
    if logger >= files.loggers {
        return None;
    }
    match path(alloc, files, logger) {
        Ok(path) => Some(Cause::Unlogged {
            path,
            commits: shortfall.lost,
        }),
        Err(_) => None,
    }
}

/// That so many commits are of the last epoch.
fn in_last_epoch(alloc: Global, files: &LogFiles, commits: u64) -> Option<Cause>
    ensures { IfSome result (λ cause. cause_view cause ≡ InLastEpoch (path_of files.now 0) commits) }
{
    match path(alloc, files, 0) {
        Ok(path) => Some(Cause::InLastEpoch { path, commits }),
        Err(_) => None,
    }
}
