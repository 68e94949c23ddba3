//! Where a terminal can be watched, and held, on its way through an input.
ghost use Rattle.std.specs.Prelude.{◌≡◌};
ghost use Rattle.terminals.specs.Calls.{one_more_execute, one_more_commit, one_more_committed};

use book::Done;

/// How many calls a gate has had of each kind. Each count stays at its greatest number.
#[derive(Clone, Copy, Debug, Default, PartialEq, Eq)]
pub struct Calls {
    /// Tries that began.
    pub executes: u64,
    /// Tries whose transaction was executed, and then to be committed.
    pub commits: u64,
    /// Tries that committed.
    pub committed: u64,
}

/// What a terminal calls on its way through an input, outside the book's lock. A gate may wait, so that a test can
/// hold a terminal there. Contracts see how many calls it has had.
pub trait Gate {
    ghost use Rattle.terminals.specs.Calls.{one_more_execute, one_more_commit, one_more_committed};
    ghost use Rattle.terminals.specs.declared.gate.Calls.{Calls};

    /// The calls that the gate has had.
    ghost calls: { Self → Calls };

    /// Before a transaction is executed: once a try.
    fn before_execute(&mut self)
        ensures { calls self.new ≡ one_more_execute (calls self.old) };

    /// Before it is committed.
    fn before_commit(&mut self)
        ensures { calls self.new ≡ one_more_commit (calls self.old) };

    /// After a commit.
    fn after_commit(&mut self)
        ensures { calls self.new ≡ one_more_committed (calls self.old) };

    /// After these replies were released, which is told by whoever has the terminal acknowledge: those that it released
    /// then, the oldest first.
    fn released(&mut self, _replies: &[Done])
        ensures { calls self.new ≡ calls self.old }
    {}
}

/// A gate that only counts.
impl Gate for Calls {
    ghost calls = { λ gate. gate };

    fn before_execute(&mut self) {
        self.executes = self.executes.saturating_add(1);
    }

    fn before_commit(&mut self) {
        self.commits = self.commits.saturating_add(1);
    }

    fn after_commit(&mut self) {
        self.committed = self.committed.saturating_add(1);
    }
}
