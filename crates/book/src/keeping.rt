//! Keeping the annals of a run, in which just the book's history stands.
ghost use Rattle.std.specs.Prelude.{◌≡◌, ◌+◌, ◌-◌, ◌<◌, [], ◌∷◌, ◌++◌};
ghost use Rattle.annals.specs.Rule.{last_alone};
ghost use Rattle.book.specs.Dates.{Bears, date_of};
ghost use Rattle.book.specs.Epochs.{found_epoch};

use crate::book::Book;
use crate::entry::Entry;
use crate::run::Run;
use annals::{Annalist, Annals, Pass};

impl<K: Run> Book<K> {
    /// A pass which claims that the last commit stands in the history. One load.
    pub fn cite(&mut self) -> Pass<Entry>
        ensures same { self.new ≡ self.old }
        ensures pass { result ≡ record {
          table = K.run.annals.table;
          claim = record { front = []; mark = 0; has = last_alone self.old.history };
        } }
    {
        self.annals.cite(&mut self.annalist)
    }

    /// For proofs: what a pass of the run's annals claims is so of the history. Three loads.
    pub fn hear(&mut self, pass: &mut Pass<Entry>)
        requires { pass.old.table ≡ K.run.annals.table }
        ensures same { (self.new ≡ self.old) × (pass.new ≡ pass.old) }
        ensures bears { Bears K.run.board.plan.base self.old.history pass.old.claim }
    {
        self.annals.hear(&mut self.annalist, pass);
    }

    /// Nothing more comes of epochs up to this mark, and a pass knows the history up to it. A store and a load.
    pub(crate) fn mark(&mut self, mark: u64) -> Pass<Entry>
        requires { mark + 1 ≡ found_epoch self.old.seat }
        ensures same { self.new ≡ self.old }
        ensures pass { result ≡ record {
          table = K.run.annals.table;
          claim = record { front = self.old.history; mark = mark; has = [] };
        } }
    {
        self.annals.mark(&mut self.annalist, mark);
        self.annals.copy(&mut self.annalist)
    }
}

/// A commit of this epoch, the one that the book's seat has found, stands in the annals.
pub(crate) fn keep(annals: &Annals<Entry>, keeper: &mut Annalist<Entry>, epoch: u64, entry: &Entry)
    requires own { keeper.old.annals ≡ annals.now }
    requires mark { keeper.old.mark < epoch }
    requires date { date_of entry.now ≡ epoch }
    ensures { keeper.new ≡ record {
      annals = keeper.old.annals;
      history = keeper.old.history ++ entry.now ∷ [];
      mark = epoch - 1;
    } }
{
    annals.add(keeper, epoch - 1, entry);
}
