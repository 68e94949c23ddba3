//! The least and the greatest order number of each district, of ORDER and of NEW-ORDER, brought up to date by the
//! records that a commit writes.
#![tactic(auto)]

mod ends;
mod order_bounds;

pub use order_bounds::OrderBounds;
