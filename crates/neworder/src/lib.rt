//! New-Order (TPC-C 2.4) on record cells: what it reads, what it is to write, and its reply. Nothing is written before
//! the commit (Silo, SOSP 2013, section 4.4).
#![tactic(auto)]

mod draws;
mod lines;
mod new_rows;
mod opening;
mod prices;
mod reply;
mod stock;
mod transaction;

pub use transaction::execute;
