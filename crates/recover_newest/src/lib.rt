//! The newest writes of records, and the tables that they make of a population's (Silo, section 4.10).
#![tactic(auto)]

mod latest;
mod newest;
mod rebuilding;

pub use latest::Latest;
pub use newest::Newest;
pub use rebuilding::{copied, put_all};
