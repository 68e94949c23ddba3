//! A terminal's share of the commits.
ghost use Rattle.std.specs.Prelude.{◌≡◌, ◌+◌};

use crate::run::Run;
use std::marker::Model;
use std::sync::ledger;

/// How many of the commits are a terminal's, and that terminal's number. It has no bytes but that number: how
/// many is what a proof knows.
#[derive(Drop)]
pub struct Share<K: Run> {
    pub(crate) part: ledger::Share<K>,
    pub(crate) terminal: u16,
}

impl<K: Run> Model for Share<K> {
    ghost use Rattle.std.specs.Prelude.{◌<◌};
    ghost use Rattle.book.specs.Share.{ShareView};

    ghost Value = { ShareView };

    ghost view = { λ s. record { terminal = s.terminal; parts = s.part.parts; commits = s.part.amount } };

    ghost invariant = { λ s. (0 < s.part.parts) × (s.terminal < K.parts) };
}

impl<K: Run> Share<K> {
    /// The number of the terminal, from 0.
    pub fn terminal(&self) -> u16
        ensures { result ≡ self.now.terminal }
    {
        self.terminal
    }

    /// Takes in what another terminal's share has.
    pub(crate) fn join(&mut self, other: Share<K>)
        ensures { self.new ≡ record {
          terminal = self.old.terminal;
          parts = self.old.parts + other.parts;
          commits =
              self.old.commits + other.commits;
        } }
    {
        self.part.merge(other.part);
    }
}
