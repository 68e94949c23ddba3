//! Recovery: the tables that a database had, from its log files (Silo, section 4.10).
#![tactic(auto)]

mod commits;
mod file_set;
mod files;
mod history;
mod merging;
mod numbering;
mod one_answer;
mod part;
mod reading;
mod recovering;

pub use commits::commits_found;
pub use files::is_of;
pub use numbering::Commit;
pub use one_answer::recovery_is_one;
pub use recovering::{Recovered, recover, recover_bodies, recover_with};
