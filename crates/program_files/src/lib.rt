//! What the program does with its log files: it makes them, opens and locks those that are there, tells what they
//! recover to, and finds out why they were refused.
#![tactic(auto)]

mod causes;
mod fault;
mod header;
mod logs;
mod starting;

pub use causes::{broken_off, unrecovered};
pub use fault::{Cause, Fault, Purpose, Trouble};
pub use header::{Headless, first_header};
pub use logs::{disks, path, report, show, sizes};
pub use starting::{Names, NewFiles, give_names};
