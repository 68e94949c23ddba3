//! The book: the committed state under one lock, whose type vouches for it. Whenever the lock is free, the
//! committed tables are the serial replay of the history with every reply the same, they are well-formed and
//! consistent (TPC-C 3.3.2), and the versions of each record are the values that it had along that
//! history.
#![tactic(auto)]

mod batch;
mod book;
mod closed;
mod committing;
mod confirming;
mod counting;
mod done;
mod engine;
mod entry;
mod history_rows;
mod keeping;
mod parts;
mod prepare;
mod reaching;
mod run;
mod share;
mod shared;
mod shown;
mod steps;
mod taken;
mod taking;
mod untaken;

pub use batch::Batch;
pub use book::Book;
pub use closed::Closed;
pub use done::Done;
pub use engine::{Engine, Seat, Seats, TerminalSeats};
pub use entry::Entry;
pub use parts::{Base, Parts};
pub use reaching::histories_stay_in_reach;
pub use run::Run;
pub use share::Share;
pub use shown::every_book_is_shown;
pub use taken::Taken;
