//! Disks in memory that fail, and what a stop leaves on one in memory: for tests of log files.
#![tactic(auto)]

mod failing;
mod stopping;

pub use failing::{FailingDisk, Fault, Unsynced};
pub use stopping::{ALL_TORN, Torn, leave, left_by};
