//! The header of a log file: its bytes, and the value that they stand for.
#![tactic(auto)]

mod header;

pub use header::{Header, OLDEST_VERSION, VERSION, one_header, put_header, read_header};
