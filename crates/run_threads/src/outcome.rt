//! What comes of a run.
ghost use Rattle.std.specs.Prelude.{◌≡◌, false};

use crate::counts::Counts;
use crate::tally::Tally;
use book::{Closed, Run};
use log_disk::Disk;
use logger::Logger;
use terminals_deck::Deck;

/// What comes of a run: what its terminals have counted, what their loggers have made durable, and what was committed.
#[derive(Drop)]
pub struct Outcome<K: Run, D: Disk> {
    pub counts: Counts,
    /// What came of each terminal's inputs, in the order of their numbers: the first four counts are the sums of these.
    pub tallies: Vec<Tally>,
    /// The terminals' decks, in the same order, behind all inputs of the run.
    pub decks: Vec<Deck>,
    /// The loggers' files, in the order of their loggers.
    pub files: Vec<Written<D>>,
    /// What has committed.
    pub closed: Closed<K>,
}

/// A logger at the end of a run.
#[derive(Drop)]
pub struct Written<D: Disk> {
    pub logger: Logger<D>,
    /// Whether it stopped before the end: its device has failed.
    pub has_stopped: bool,
    /// Whether it had no memory for its last batch, which isn't in its file.
    pub lacks_memory: bool,
    pub ghost told: { has_stopped ≡ false → logger.file.failed ≡ false },
}
