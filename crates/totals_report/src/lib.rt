//! The report of the consistency conditions (TPC-C 3.3.2) from records and running totals, in one pass over the
//! records.
#![tactic(auto)]

mod asking;
mod holding;
mod reporting;

pub use reporting::report_of;
