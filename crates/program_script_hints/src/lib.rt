//! What is wrong with a refused line of a script, in words for whoever wrote it. No answer rests on it.
#![tactic(auto)]

mod explaining;
mod form;
mod hinted;
mod ranges;
mod shape;

pub use explaining::explanation;
pub use hinted::Hinted;
