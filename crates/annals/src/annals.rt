//! The calls of annals.
ghost use Rattle.std.specs.Prelude.{◌≡◌, ◌+◌, ◌≤◌, [], ◌∷◌, ◌++◌, IfOk};
ghost use Rattle.annals.specs.Claims.{AreOfOne};
ghost use Rattle.annals.specs.Rule.{begun_claim, last_alone};
ghost use Rattle.annals.specs.Passes.{Hears};

use crate::annalist::Annalist;
use crate::claims::{Dated, Known};
use crate::pass::Pass;
use crate::rule::AnnalsRule;
use crate::steps::{
    add_entry, begin_pass, cite_pass, compare_claims, gather_pass, hear_pass, raise_mark,
    share_pass,
};
use atomic_table::Table;
use std::alloc::{AllocError, Global};
use std::marker::Model;

/// The annals of a run: a word, whose steps tie the claims of all passes to one history. The history itself is nowhere:
/// it is what a proof knows. Contracts see which annals they are and behind which epoch they began (`AnnalsView`). Each
/// call takes a step or a few at the word, never waits, and takes no memory.
#[derive(Drop)]
pub struct Annals<S: Dated> {
    table: Table<S, Known<S>, u64, AnnalsRule, Global>,
}

impl<S: Dated> Model for Annals<S> {
    ghost use Rattle.std.specs.Prelude.{◌≡◌};
    ghost use Rattle.annals.specs.Passes.{AnnalsView};

    ghost Value = { AnnalsView };

    ghost view = { λ a. record { table = a.table.shared.table_id; base = a.table.shared.key } };

    ghost invariant = { λ a. a.table.shared.table_id.words ≡ 1 };
}

impl<S: Dated> Annals<S> {
    /// Annals behind an epoch, in which nothing stands, with the pass of who keeps them. Takes memory for a word.
    pub fn new(alloc: Global, base: u64) -> Result<(Annals<S>, Annalist<S>), AllocError>
        ensures base { IfOk result (λ made. made.0.base ≡ base) }
        ensures keeper { IfOk result (λ made. made.1 ≡ record { annals = made.0; history = []; mark = base }) }
    {
        let (table, seat) = Table::of_words(alloc, &[0], &base)?;
        Ok((Annals { table }, Annalist { seat }))
    }

    /// An entry of the epoch behind a mark stands at the end of the history. Nothing more comes of epochs up to the mark.
    /// One exchange.
    pub fn add(&self, keeper: &mut Annalist<S>, mark: u64, entry: &S)
        requires own { keeper.old.annals ≡ self.now }
        requires later { keeper.old.mark ≤ mark }
        requires date { S.date entry.now ≡ mark + 1 }
        ensures { keeper.new ≡ record {
          annals = keeper.old.annals;
          history = keeper.old.history ++ entry.now ∷ [];
          mark = mark;
        } }
    {
        add_entry(&self.table.shared, &mut keeper.seat, mark, entry);
    }

    /// Nothing more comes of epochs up to the mark. One store.
    pub fn mark(&self, keeper: &mut Annalist<S>, mark: u64)
        requires own { keeper.old.annals ≡ self.now }
        requires later { keeper.old.mark ≤ mark }
        ensures { keeper.new ≡ record { annals = keeper.old.annals; history = keeper.old.history; mark = mark } }
    {
        raise_mark(&self.table.shared, &mut keeper.seat, mark);
    }

    /// A pass that claims what is so as annals begin: all is of epochs above the base. One load.
    pub fn begin(&self) -> Pass<S>
        ensures { result ≡ record { table = self.now.table; claim = begun_claim self.now.base } }
    {
        Pass {
            seat: begin_pass(&self.table.shared),
        }
    }

    /// A pass that claims the whole history. One load.
    pub fn copy(&self, keeper: &mut Annalist<S>) -> Pass<S>
        requires { keeper.old.annals ≡ self.now }
        ensures same { keeper.new ≡ keeper.old }
        ensures pass { result ≡ record {
          table = self.now.table;
          claim = record { front = keeper.old.history; mark = keeper.old.mark; has = [] };
        } }
    {
        Pass {
            seat: share_pass(&self.table.shared, &mut keeper.seat),
        }
    }

    /// A pass with the same claim. One load.
    pub fn share(&self, pass: &mut Pass<S>) -> Pass<S>
        requires { pass.old.table ≡ self.now.table }
        ensures same { pass.new ≡ pass.old }
        ensures pass { result ≡ pass.old }
    {
        Pass {
            seat: share_pass(&self.table.shared, &mut pass.seat),
        }
    }

    /// A pass which claims that the last entry is there. One load.
    pub fn cite(&self, keeper: &mut Annalist<S>) -> Pass<S>
        requires { keeper.old.annals ≡ self.now }
        ensures same { keeper.new ≡ keeper.old }
        ensures pass { result ≡ record {
          table = self.now.table;
          claim = record { front = []; mark = 0; has = last_alone keeper.old.history };
        } }
    {
        Pass {
            seat: cite_pass(&self.table.shared, &mut keeper.seat),
        }
    }

    /// What another pass says is there, this one then says too. One load.
    pub fn gather(&self, pass: &mut Pass<S>, other: Pass<S>)
        requires { (pass.old.table ≡ self.now.table) × (other.table ≡ self.now.table) }
        ensures { pass.new ≡ record {
          table = pass.old.table;
          claim = record {
            front = pass.old.claim.front;
            mark = pass.old.claim.mark;
            has =
                pass.old.claim.has ++ other.claim.has;
          };
        } }
    {
        gather_pass(&self.table.shared, &mut pass.seat, other.seat);
    }

    /// For proofs: both claim parts of one history. Three loads.
    pub fn compare(&self, pass: &mut Pass<S>, other: &mut Pass<S>)
        requires { (pass.old.table ≡ self.now.table) × (other.old.table ≡ self.now.table) }
        ensures same { (pass.new ≡ pass.old) × (other.new ≡ other.old) }
        ensures agree { AreOfOne S.date pass.old.claim other.old.claim }
    {
        let heard = share_pass(&self.table.shared, &mut other.seat);
        hear_pass(&self.table.shared, &mut pass.seat, heard);
        compare_claims(&self.table.shared, &mut pass.seat);
    }

    /// For proofs: what a pass claims is so of the keeper's history. Three loads.
    pub fn hear(&self, keeper: &mut Annalist<S>, pass: &mut Pass<S>)
        requires { (keeper.old.annals ≡ self.now) × (pass.old.table ≡ self.now.table) }
        ensures same { (keeper.new ≡ keeper.old) × (pass.new ≡ pass.old) }
        ensures hears { Hears S.date keeper.old pass.old.claim }
    {
        let heard = share_pass(&self.table.shared, &mut pass.seat);
        hear_pass(&self.table.shared, &mut keeper.seat, heard);
        compare_claims(&self.table.shared, &mut keeper.seat);
    }
}
