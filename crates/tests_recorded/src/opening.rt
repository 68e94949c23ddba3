//! The log files of a run that is recorded.
ghost use Rattle.std.specs.Prelude.{◌≡◌, ◌<◌, ◌≤◌, map, IfOk, IsTrue};

use log_disk::Disk;
use logfile::LogFile;
use program_run::RunPlan;
use run_threads::{AtOnce, Paced};
use std::alloc::{AllocError, Global};

/// The disks, for new log files.
pub fn slots<D: Disk + Drop>(
    alloc: Global,
    disks: Vec<D>,
) -> Result<Vec<Paced<D, AtOnce>>, AllocError> {
    let mut slots = Vec::new(alloc);
    for disk in disks {
        slots.push(Paced {
            inner: disk,
            pace: AtOnce,
        })?;
    }
    Ok(slots)
}

/// Whether there are 1 to 8 loggers, and 1 to 16 terminals.
pub fn is_possible(loggers: usize, plan: &RunPlan) -> bool
    ensures loggers { IsTrue result → (0 < loggers) × (loggers ≤ 8) }
    ensures terminals { IsTrue result → (0 < plan.now.terminals) × (plan.now.terminals ≤ 16) }
{
    0 < loggers && loggers <= 8 && 0 < plan.terminals && plan.terminals <= 16
}

/// Log files, of loggers whose turns follow at once.
pub fn open_logs<D: Disk + Drop>(
    alloc: Global,
    files: Vec<LogFile<D>>,
) -> Result<Vec<Paced<LogFile<D>, AtOnce>>, AllocError>
    ensures { IfOk result (λ logs. map (λ log. log.inner) logs.items ≡ files.items) }
{
    let mut logs = Vec::new(alloc);
    for file in files {
        logs.push(Paced {
            inner: file,
            pace: AtOnce,
        })?;
    }
    Ok(logs)
}
