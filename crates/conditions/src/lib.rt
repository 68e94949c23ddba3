//! The check of TPC-C's consistency conditions (TPC-C 3.3.2) over any tables: for each condition the least
//! key that breaks it.
#![tactic(auto)]

mod amounts;
mod checks;
mod columns;
mod customer_conditions;
mod customer_walks;
mod key_conditions;
mod lines;
mod numbers;
mod report;
mod row_conditions;
mod search;
mod shares;
mod sums;

pub use checks::check;
pub use report::Report;
pub use row_conditions::RowCondition;
pub use search::least_row;
