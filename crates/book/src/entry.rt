//! What has committed.

use annals::Dated;
use readset::WriteList;
use tables::{Input, Reply};
use tidword::TidWord;

/// A committed transaction as the history has it.
#[derive(Drop)]
pub struct Entry {
    /// The commit number: from 1, in a run with no past.
    pub number: u32,
    /// Its TID, which the words of the versions that it stored have (Silo, section 4.2).
    pub tid: TidWord,
    /// The terminal that asked for it, from 0.
    pub terminal: u16,
    pub input: Input,
    pub reply: Reply,
    pub writes: WriteList,
}

impl Dated for Entry {
    ghost use Rattle.book.specs.Dates.{date_of};

    ghost date = { date_of };
}
