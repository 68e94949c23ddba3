//! Payment (TPC-C 2.5) on record cells: what it reads, what it is to write, and its reply. Nothing is written
//! before the commit (Silo, SOSP 2013, section 4.4).
#![tactic(auto)]

mod text;
mod transaction;

pub use transaction::execute;
