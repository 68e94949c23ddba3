//! The command line of `tpcc`.
#![tactic(auto)]

mod asked;
mod run_words;
mod script_words;
mod words;

pub use asked::{
    Asked, InfoOptions, LogFiles, Options, RecoverOptions, RunOptions, ScriptOptions, Subcommand,
};
pub use words::{VERSION_LINE, read_words};
