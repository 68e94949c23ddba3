//! The text of a log file and its value: a header, and the bodies that loggers append. Reading is exact both ways: what
//! is read has the bytes as its text, and where nothing is read the bytes are no such text.
#![tactic(auto)]

mod bodies;
mod body;
mod columns;
mod entry;
mod files;
mod last;
mod laws;
mod reading;
mod reading_entries;
mod rules;
mod text;
mod write;
mod write_rules;
mod writing;

pub use bodies::read_body;
pub use body::{Body, VOID_MARK};
pub use entry::LoggedEntry;
pub use files::{read_file, read_to_end};
pub use last::Last;
pub use laws::one_file;
pub use text::LoggedText;
pub use write::{Value, Write};
pub use writing::{put_body, put_front, put_text, put_write, set_length, void_text};
