//! What a transaction reads and what it is to write, on record cells. Nothing is written before the commit (Silo,
//! SOSP 2013, section 4.4).
#![tactic(auto)]

mod arrivals;
mod beside;
mod few;
mod list;
mod places;
mod reads;
mod row_steps;
mod transaction;
mod work;
mod writes;

pub use list::WriteList;
pub use reads::{ReadSet, value_of};
pub use row_steps::{put_row, read_present, read_row};
pub use transaction::{Start, Transaction};
pub use work::Work;
pub use writes::WriteSet;
