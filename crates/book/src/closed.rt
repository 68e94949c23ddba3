//! The end of a run.
ghost use Rattle.std.specs.Prelude.{◌≡◌, ◌+◌, ◌≤◌, length, map, IfOk, IfErr, IfSome, IfNone};
ghost use Rattle.std.specs.List.{sum_by};
ghost use Rattle.std.specs.Arc.{arc_value};
ghost use Rattle.money.specs.declared.refusal.Refusal.TheVariants.{OutOfMemory};
ghost use Rattle.tables.specs.Conditions.{IsConsistent};
ghost use Rattle.tables.specs.Database.{database};
ghost use Rattle.tables.specs.WellFormed.{IsWellFormed};
ghost use Rattle.tables.specs.declared.limits.TheConstants.{MAX_COMMITS};
ghost use Rattle.conditions.specs.Report.{IsReportOf, IsGood};
ghost use Rattle.book.specs.Dates.{Bears};
ghost use Rattle.book.specs.History.{IsLegal, replay};
ghost use Rattle.book.specs.Loggable.{AreLoggable};
ghost use Rattle.book.specs.Share.{parts_of, share_commits};
ghost use Rattle.book.specs.Stamps.{AreStamped};

use crate::book::Book;
use crate::engine::Engine;
use crate::entry::Entry;
use crate::run::Run;
use crate::share::Share;
use annals::Pass;
use cells::Cells;
use conditions::Report;
use money::Refusal;
use std::alloc::Global;
use std::marker::Model;
use std::sync::Arc;
use tables::Tables;

/// What a run has committed, once all of its terminals have given back their shares. Contracts see the history.
#[derive(Drop)]
pub struct Closed<K: Run> {
    cells: Cells,
    book: Book<K>,
}

impl<K: Run> Model for Closed<K> {
    ghost use Rattle.std.specs.Prelude.{◌≡◌, List};
    ghost use Rattle.book.specs.declared.entry.Entry.{Entry};

    ghost Value = { List Entry };

    ghost view = { λ c. c.book.history };

    ghost invariant = { λ c. c.cells ≡ K.run.cells };
}

impl<K: Run> Closed<K> {
    /// How many transactions have committed. Constant time, no memory.
    pub fn commits(&self) -> u64
        ensures commits { result ≡ length self.now }
        ensures few { result ≤ MAX_COMMITS }
    {
        self.book.commits()
    }

    /// What has committed, in order. Takes no memory.
    ///
    /// Each entry is done at the tables that those before it leave, its reply is the one that its transaction has
    /// there, its terminal is one of the run's, and it may be written to a log file. TIDs rise by record and by
    /// terminal, and epochs don't fall.
    pub fn history(&self) -> &[Arc<Entry, Global>]
        ensures history { map arc_value result.now ≡ self.now }
        ensures legal { IsLegal K.run.past K.run.first self.now (replay K.run.first self.now) }
        ensures stamped { AreStamped self.now }
        ensures loggable { AreLoggable K.run.first.scale K.parts self.now }
    {
        self.book.history()
    }

    /// The committed tables: the history's serial replay, which is well-formed and consistent. Costs what
    /// `Book::tables` does. `OutOfMemory` is the only refusal.
    pub fn tables(&mut self) -> Result<Tables, Refusal>
        ensures same { self.new ≡ self.old }
        ensures tables { IfOk result (λ tables. database tables ≡ replay K.run.first self.old) }
        ensures well_formed { IfOk result (λ tables. IsWellFormed (database tables)) }
        ensures consistent { IfOk result (λ tables. IsConsistent (database tables)) }
        ensures only_memory { IfErr result (λ refusal. refusal ≡ OutOfMemory) }
    {
        self.book.tables(&self.cells)
    }

    /// For proofs: what a pass of the run's annals claims is so of the history. Three loads.
    pub fn hear(&mut self, pass: &mut Pass<Entry>)
        requires { pass.old.table ≡ K.run.annals.table }
        ensures same { (self.new ≡ self.old) × (pass.new ≡ pass.old) }
        ensures bears { Bears K.run.board.plan.base self.old pass.old.claim }
    {
        self.book.hear(pass);
    }

    /// Which conditions the committed tables meet: all. Costs what `Book::report` does. `OutOfMemory` is the only
    /// refusal.
    pub fn report(&mut self, alloc: Global) -> Result<Report, Refusal>
        ensures same { self.new ≡ self.old }
        ensures report { IfOk result (IsReportOf (replay K.run.first self.old)) }
        ensures good { IfOk result IsGood }
        ensures only_memory { IfErr result (λ refusal. refusal ≡ OutOfMemory) }
    {
        self.book.report(&self.cells, alloc)
    }
}

impl<K: Run> Engine<K> {
    /// Ends the run, for the shares of all its terminals, which together count each of its commits once. Constant time
    /// a share; takes no memory.
    pub fn close(self, shares: Vec<Share<K>>) -> Closed<K>
        requires all { sum_by parts_of shares.items ≡ K.parts }
        ensures { length result ≡ sum_by share_commits shares.items }
    {
        let Engine {
            population: _,
            cells,
            board: _,
            annals: _,
            book,
        } = self;
        let mut book = book.into_inner();
        let Some(mut whole) = joined(shares) else {
            unreachable!()
        };
        book.audit(&mut whole);
        Closed { cells, book }
    }
}

/// One share with the parts and commits of all of these. None exactly where there is none.
fn joined<K: Run>(shares: Vec<Share<K>>) -> Option<Share<K>>
    ensures some { IfSome result (λ whole. (whole.parts ≡ sum_by parts_of shares.items)
        × (whole.commits ≡ sum_by share_commits shares.items)) }
    ensures none { IfNone result (length shares.items ≡ 0) }
{
    let mut shares = shares;
    let mut whole = shares.pop()?;
    while let Some(share) = shares.pop() {
        whole.join(share);
    }
    Some(whole)
}
