//! What came of inputs.
ghost use Rattle.std.specs.Prelude.{◌≡◌, ◌+◌, ◌^◌, ◌<◌};
ghost use Rattle.run_threads.specs.Tally.{inputs_in, with_outcome};

use money::Refusal;

/// What came of a terminal's inputs.
#[derive(Clone, Copy, Debug, Default, PartialEq, Eq)]
pub struct Tally {
    /// Transactions that committed.
    pub commits: u32,
    /// New-Orders that were rolled back, for an item that isn't in ITEM.
    pub rollbacks: u32,
    /// Inputs that the terminal gave up.
    pub gave_up: u32,
    /// Inputs refused for memory, the order cap or the commit cap.
    pub refused: u32,
}

impl Tally {
    /// Counts one outcome more.
    pub(crate) fn count(&mut self, outcome: &Result<u64, Refusal>)
        requires { inputs_in self.old + 1 < 2 ^ 32 }
        ensures { self.new ≡ with_outcome outcome.now self.old }
    {
        match outcome {
            Ok(_) => self.commits += 1,
            Err(Refusal::ItemNotValid { .. }) => self.rollbacks += 1,
            Err(Refusal::GaveUp) => self.gave_up += 1,
            Err(_) => self.refused += 1,
        }
    }
}
