//! An engine with a paying terminal, and the log file to which its commits go, of one logger where it is made here: for
//! tests and measurements of log files.
#![tactic(auto)]

mod filling;
mod stage;

pub use filling::{Paid, Standing, append_payments, filled, small, where_stands};
pub use stage::{Stage, append_to, commit, parts};
