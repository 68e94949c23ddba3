//! The session of a terminal that has the book to itself: each input is executed and committed in its turn.
#![tactic(auto)]

mod attempting;
mod session;

pub use session::Session;
