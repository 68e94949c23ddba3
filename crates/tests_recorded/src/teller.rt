//! A terminal's gate, which notes the replies that it hears of.
ghost use Rattle.std.specs.Prelude.{◌≡◌};

use crate::notes::Notes;
use book::Done;
use terminals::{Calls, Gate};

/// The gate of a terminal, which holds it behind each commit for some stamps, or until a sync waits for it: so it asks
/// for its replies at each moment of a batch.
#[derive(Drop)]
pub struct Teller<'a> {
    pub calls: Calls,
    pub notes: &'a Notes,
    /// Which terminal it is.
    pub terminal: u64,
}

impl<'a> Gate for Teller<'a> {
    ghost calls = { λ gate. gate.calls };

    fn before_execute(&mut self) {
        self.calls.before_execute();
    }

    fn before_commit(&mut self) {
        self.calls.before_commit();
    }

    fn after_commit(&mut self) {
        self.calls.after_commit();
        let turn = self.calls.committed.wrapping_mul(7);
        self.notes
            .wait(turn.wrapping_add(self.terminal.wrapping_mul(3)) % 24);
    }

    fn released(&mut self, replies: &[Done]) {
        for done in replies {
            self.notes.release(done);
        }
        self.notes.ask();
    }
}
