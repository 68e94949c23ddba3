//! Terminals: their inputs, one after another, and the replies of what they have committed, released as the loggers
//! have made them durable.
#![tactic(auto)]

mod gate;
mod outbox;
mod steps;
mod terminal;

pub use gate::{Calls, Gate};
pub use outbox::Outbox;
pub use terminal::{TRIES, Terminal};
