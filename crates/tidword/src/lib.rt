//! TID words, and the TID that a commit takes (Silo, sections 4.2 and 4.4).
#![tactic(auto)]

mod next;
mod word;

pub use next::next_tid;
pub use word::{Status, TidWord};
