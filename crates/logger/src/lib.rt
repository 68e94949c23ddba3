//! A logger: it appends what it takes from the book to its log file, says on the board up to which epoch the file keeps
//! it, and raises the durable epoch (Silo, section 4.10).
#![tactic(auto)]

mod logger;

pub use logger::Logger;
