//! What recovered tables are asked beside the conditions: that each NEW-ORDER row and each line belongs to an order,
//! and that no column is further from zero than so many commits can have taken it.
#![tactic(auto)]

mod belonging;
mod each_row;
mod near;
mod reach;

pub use belonging::belong_to_orders;
pub use reach::is_in_reach;
