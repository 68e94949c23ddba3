//! A log file, read from a disk.
#![tactic(auto)]

mod laws;
mod reading;
mod scanning;

pub use laws::same_file;
pub use reading::{text, text_of_size};
pub use scanning::{scan, scan_noted};
