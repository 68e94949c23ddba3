//! A Delivery on record cells (TPC-C 2.7.4.2), not yet committed.
#![tactic(auto)]

mod districts;
mod lines;
mod oldest;
mod order;
mod transaction;

pub use transaction::execute;
