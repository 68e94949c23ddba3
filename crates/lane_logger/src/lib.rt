//! A logger of a run, whose type keeps that its file is a lane of its stream: what the file has, what is on its way
//! there, and what waits, of the history as its pass knows it.
#![tactic(auto)]

mod lane;
mod logged;

pub use lane::LaneLogger;
pub use logged::LoggedRun;
