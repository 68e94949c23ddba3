//! A batch, and what is known of the history that it was taken of.
ghost use Rattle.std.specs.Prelude.{◌≡◌};

use crate::batch::Batch;
use crate::entry::Entry;
use crate::run::Run;
use annals::{Annals, Pass};
use std::marker::{Model, PhantomData};

/// A batch of a run with a pass that knows the history as it was taken. Only a take makes one. Its type keeps that the
/// batch is what was left of its logger's stream there, at the mark of then (`IsTakenOf`).
#[derive(Drop)]
pub struct Taken<K: Run> {
    pub(crate) batch: Batch,
    pub(crate) pass: Pass<Entry>,
    pub(crate) run: PhantomData<K>,
}

impl<K: Run> Model for Taken<K> {
    ghost use Rattle.std.specs.Prelude.{◌≡◌};
    ghost use Rattle.book.specs.Dates.{TakenView, IsTakenOf};

    ghost Value = { TakenView };

    ghost view = { λ t. record { batch = t.batch; claim = t.pass.claim } };

    ghost invariant = { λ t. (t.pass.table ≡ K.run.annals.table) × (t.batch.loggers ≡ K.run.board.plan.loggers)
        × (t.batch.scale ≡ K.run.first.scale) × (t.batch.seed ≡ K.run.seed) × IsTakenOf t.batch t.pass.claim };
}

impl<K: Run> Taken<K> {
    ghost use Rattle.book.specs.Dates.{IsTakenOf};

    /// The batch.
    pub fn batch(&self) -> &Batch
        ensures batch { result.now ≡ self.now.batch }
        ensures run { (result.now.loggers ≡ K.run.board.plan.loggers) × (result.now.scale ≡ K.run.first.scale)
            × (result.now.seed ≡ K.run.seed) }
        ensures of { IsTakenOf result.now self.now.claim }
    {
        &self.batch
    }

    /// A pass that knows the same history. One load.
    pub fn share(&mut self, annals: &Annals<Entry>) -> Pass<Entry>
        requires { annals.now ≡ K.run.annals }
        ensures same { self.new ≡ self.old }
        ensures pass { result ≡ record { table = K.run.annals.table; claim = self.old.claim } }
    {
        annals.share(&mut self.pass)
    }
}
