//! An entry of the book's history, as an entry of a log file.
#![tactic(auto)]

mod batches;
mod history;
mod writing;

pub use batches::put_batch;
pub use writing::put_entry;
