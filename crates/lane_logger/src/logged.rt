//! What names a run with its log files.

use book::Run;
use std::marker::Brand;

/// Names one run whose loggers write log files: with all that a `Run` names, how each logger's file was found open, as
/// the run began.
pub trait LoggedRun: Run {
    ghost use Rattle.std.specs.Prelude.{ℕ};
    ghost use Rattle.logfile.specs.Standing.{LogFileView};
    ghost use Rattle.recover_crashes.specs.World.{DiskView};

    /// By the loggers' numbers.
    ghost found: { ℕ → LogFileView DiskView };
}

/// Only so that there is one: a call at `Brand` names its own.
impl LoggedRun for Brand {
    ghost use Rattle.lane_logger.specs.Found.{no_file};

    ghost found = { λ _. no_file };
}
