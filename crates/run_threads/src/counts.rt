//! The numbers of a run.
ghost use Rattle.std.specs.Prelude.{◌≡◌, ◌^◌, ◌<◌, length};

use crate::tally::Tally;

/// The numbers of a run.
#[derive(Clone, Copy, Debug, PartialEq, Eq)]
pub struct Counts {
    /// Transactions that committed.
    pub commits: u64,
    /// New-Orders that were rolled back, for an item that isn't in ITEM.
    pub rollbacks: u64,
    /// Inputs that their terminals gave up, after 64 tries.
    pub gave_up: u64,
    /// Inputs refused for memory, the order cap or the commit cap.
    pub refused: u64,
    /// The last D.
    pub durable: u64,
    /// Replies that were released.
    pub acknowledged: u64,
}

impl Counts {
    ghost use Rattle.run_threads.specs.Tally.{AreTallySums};

    /// Those of terminals of which so much came, beside these two.
    pub(crate) fn of(tallies: &[Tally], durable: u64, acknowledged: u64) -> Counts
        requires { length tallies.now < 2 ^ 16 }
        ensures sums { AreTallySums tallies.now result }
        ensures durable { result.durable ≡ durable }
        ensures acknowledged { result.acknowledged ≡ acknowledged }
    {
        Counts {
            commits: tallies.iter().map(|tally| u64::from(tally.commits)).sum(),
            rollbacks: tallies.iter().map(|tally| u64::from(tally.rollbacks)).sum(),
            gave_up: tallies.iter().map(|tally| u64::from(tally.gave_up)).sum(),
            refused: tallies.iter().map(|tally| u64::from(tally.refused)).sum(),
            durable,
            acknowledged,
        }
    }
}
