//! How far a recovery is, in numbers that its threads share.
#![tactic(auto)]

mod counting;

pub use counting::Progress;
