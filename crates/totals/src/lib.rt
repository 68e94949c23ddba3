//! Running totals of a database's tables: each the sum, count, least or greatest that a consistency condition speaks
//! of, brought up to date by the records that a commit writes.
#![tactic(auto)]

mod amounts;
mod answering;
mod district;
mod follows;
mod opening;
mod places;
mod running;
mod totals;
mod worth;

pub use district::DistrictTotals;
pub use follows::{sums_begin_with_tables, sums_follow_commits};
pub use running::RunningSums;
pub use totals::Totals;
