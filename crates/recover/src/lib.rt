//! Recovery: the tables that a database had, from its log files (Silo, section 4.10).
#![tactic(auto)]

mod after_crashes;
mod older_files;

pub use after_crashes::{every_crash_is_recovered, recovery_is_the_replay};
pub use older_files::{
    every_crash_without_texts_is_recovered, recovery_without_texts_is_the_replay,
    tables_without_texts_may_be_first,
};
pub use recover_files::{Commit, Recovered, commits_found, recover, recover_with, recovery_is_one};
