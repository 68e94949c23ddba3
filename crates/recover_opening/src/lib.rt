//! A restart begins: all log files of a database are opened again, and the last epoch in them is found (Silo, section
//! 4.10).
#![tactic(auto)]

mod opening;
mod refused;
mod top;

pub use opening::{open_all, open_all_or_give_back};
pub use refused::{AllRefused, disks_of};
pub use top::top_epoch;
