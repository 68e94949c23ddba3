//! Driving an engine by terminals and loggers in threads, with a log file a logger, and telling what came of it.
#![tactic(auto)]

mod alarm;
mod beat;
mod driving;
mod outfit;
mod screen;
mod shortfall;
mod stopwatch;
mod telling;
mod waits;

pub use alarm::Alarm;
pub use beat::Beat;
pub use driving::{Broken, Driven, RunPlan, drive, run_parts};
pub use outfit::created;
pub use screen::Screen;
pub use shortfall::Shortfall;
pub use stopwatch::Stopwatch;
pub use telling::ran;
pub use waits::Waits;
