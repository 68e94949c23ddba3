//! A run of an engine in threads: terminals, each with its deck of inputs, beside loggers, each with its file.
#![tactic(auto)]

mod appender;
mod counts;
mod crew;
mod ending;
mod outcome;
mod pace;
mod progress;
mod sums;
mod tally;
mod threads;
mod worker;
mod writer;

pub use counts::Counts;
pub use crew::Desks;
pub use outcome::{Outcome, Written};
pub use pace::{AtOnce, Pace, Paced};
pub use progress::RunProgress;
pub use tally::Tally;
pub use threads::run;
pub use worker::Station;
