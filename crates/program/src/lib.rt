//! What the program `tpcc` does, over words, an input and two writers: its `main` hands over the real ones.
#![tactic(auto)]

mod detail;
mod ending;
mod info;
mod memory;
mod running;

pub use ending::{USAGE_FAULT, finish};
pub use running::run;
