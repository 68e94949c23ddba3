//! What is wrong with the bytes of a log file that can't be read, so that a person can be told. Nothing that is
//! recovered rests on it.
#![tactic(auto)]

mod examining;
mod field;
mod flaw;
mod versions;
mod voids;

pub use examining::{Examined, examine, headless};
pub use field::HeaderField;
pub use flaw::FileFlaw;
pub use voids::VoidFlaw;
