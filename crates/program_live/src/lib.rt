//! The subcommand `run` of the program: terminals beside loggers, on new log files or going on from those that are there.
#![tactic(auto)]

mod asked_population;
mod ended;
mod guarded;
mod live;
mod resuming;

pub use asked_population::population_of;
pub use live::run_anew;
pub use resuming::go_on;
