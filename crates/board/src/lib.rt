//! The board of epoch words: the epoch E, the commit count, each logger's floor and local mark, and the durable
//! epoch D. Threads change them in single steps, with no lock, and one rule holds between any two steps (Silo, sections
//! 4.1 and 4.10).
#![tactic(auto)]

mod board;
mod keeper;
mod opening;
mod rule;
mod seats;
mod steps;

pub use board::Board;
pub use keeper::Keeper;
pub use opening::BoardSeats;
pub use rule::{Plan, Role, WordStep};
pub use seats::{BookSeat, ClockSeat, LoggerSeat, TerminalSeat};
