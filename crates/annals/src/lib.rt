//! The annals of a run: one history that several threads know parts of, with no lock and no memory. Who keeps it knows
//! all of it; every other pass claims a front of it, and claims stay true as it grows.
#![tactic(auto)]

mod annalist;
mod annals;
mod claims;
mod pass;
mod rule;
mod steps;

pub use annalist::Annalist;
pub use annals::Annals;
pub use claims::{Claim, Dated, Known};
pub use pass::Pass;
