//! Restart: going on from the log files that a database's last process has left (Silo, section 4.10).
#![tactic(auto)]

mod basing;
mod declaring;
mod laws;
mod restarting;

pub use declaring::declare_all;
pub use laws::{restart_goes_on, restart_takes_what_a_crash_leaves};
pub use restarting::{Restarted, restart, restart_or_give_back};
