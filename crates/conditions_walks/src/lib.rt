//! Along keys that ascend: look-ups that go on from where the last one came to, and sums by group that hold on to the
//! group of the last row.
#![tactic(auto)]

mod running;
mod walk;

pub use running::{Running, is_group};
pub use walk::Walk;
