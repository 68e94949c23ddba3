//! The steps that a trace tells, and where its log files stand at the beginning.

/// A step of a run, by loggers' numbers and places in the history, both from 0. Each tells of one event.
#[derive(Clone, Copy, Debug, PartialEq, Eq)]
pub enum Step {
    /// The next entry of the history commits.
    Commit,
    /// A logger takes the rest of its stream as a batch, at this mark.
    Take { logger: usize, mark: u64 },
    /// The clock advances E by one.
    Advance,
    /// A logger's disk does its next call.
    Call { logger: usize },
    /// A logger's local mark becomes that of its file.
    Confirm { logger: usize },
    /// A logger loads the next local mark for a publication.
    LoadMark { logger: usize },
    /// A logger raises D to the least of the marks that it has loaded.
    RaiseDurable { logger: usize },
    /// The reply of the history's entry at this place is released.
    Release { place: usize },
}

/// Where a log file stands when its logger begins.
#[derive(Clone, Copy, Debug, PartialEq, Eq)]
pub struct Start {
    /// How many calls its disk has done.
    pub calls: usize,
    /// The place of the gate that ends its text.
    pub end: u64,
}
