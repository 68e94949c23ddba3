//! The committed state.

use crate::entry::Entry;
use crate::history_rows::joined_rows;
use crate::run::Run;
use crate::share::Share;
use crate::untaken::Untaken;
use annals::{Annalist, Annals};
use board::BookSeat;
use cells::{Cells, Pen};
use conditions::Report;
use customer_data::DataWords;
use encoding::tables_of;
use money::{Payload, Refusal};
use population::Population;
use std::alloc::Global;
use std::marker::Model;
use std::sync::{Arc, ledger};
use tables::{DistrictKey, History, Tables};
use tidword::TidWord;
use totals::{DistrictTotals, Totals};
use totals_report::report_of;

/// The committed state, which stands under the engine's lock: the pen of the cells, which have the newest version of
/// each record, what has committed, and the HISTORY rows that past commits added to the population's. The committed
/// tables are what these tell, and are kept nowhere. Its type keeps `KeepsBook`: `IsSound` of what contracts see of it,
/// that it is ready for the next commit, that it has each terminal's last TID, that the terminals' shares sum to the
/// length of the history, that its seat of the board has counted each commit of the history, with its epoch, that what
/// waits for a logger is what of its stream was not taken, each entry above the mark of the last take, that each entry
/// may be written to a log file, that its totals are those of the committed tables, and that it keeps the run's annals,
/// in which just the history stands (`KeepsAnnals`).
#[derive(Drop)]
pub struct Book<K: Run> {
    pub(crate) pen: Pen,
    pub(crate) population: Arc<Population, Global>,
    pub(crate) past: u32,
    pub(crate) rows: Vec<History>,
    pub(crate) totals: Totals,
    pub(crate) history: Vec<Arc<Entry, Global>>,
    pub(crate) streams: Vec<Untaken>,
    pub(crate) lasts: Vec<TidWord>,
    pub(crate) shares: ledger::Book<K>,
    pub(crate) seat: BookSeat,
    pub(crate) annals: Arc<Annals<Entry>, Global>,
    pub(crate) annalist: Annalist<Entry>,
}

impl<K: Run> Model for Book<K> {
    ghost use Rattle.std.specs.Prelude.{map};
    ghost use Rattle.std.specs.Arc.{arc_value};
    ghost use Rattle.population.specs.Initial.{initial, seed_of};
    ghost use Rattle.book.specs.Book.{BookView};
    ghost use Rattle.book.specs.Keeps.{KeepsBook, KeepsAnnals};

    ghost Value = { BookView };

    ghost view = { λ b. record {
      written = b.pen;
      history = map arc_value b.history.items;
      seat = b.seat;
      taken = map (λ s. s.taken) b.streams.items;
      marks = map (λ s. s.mark) b.streams.items;
    } };

    ghost invariant = { λ b. KeepsBook K.run K.parts
        (record {
          population = initial (arc_value b.population);
          seed = seed_of (arc_value b.population);
          past = b.past;
          rows = b.rows.items;
          pen = b.pen;
          totals = b.totals;
          history = map arc_value b.history.items;
          streams = b.streams.items;
          lasts = b.lasts.items;
          shares = b.shares.total;
          seat = b.seat;
        })
        × KeepsAnnals K.run b.seat (map arc_value b.history.items) (arc_value b.annals) b.annalist };
}

impl<K: Run> Book<K> {
    ghost use Rattle.std.specs.Prelude.{◌≡◌, ◌+◌, ◌<◌, ◌≤◌, length, map, IfOk, IfErr};
    ghost use Rattle.std.specs.Arc.{arc_value};
    ghost use Rattle.money.specs.declared.refusal.Refusal.TheVariants.{OutOfMemory};
    ghost use Rattle.tables.specs.Database.{database};
    ghost use Rattle.tables.specs.declared.limits.TheConstants.{MAX_COMMITS};
    ghost use Rattle.tables.specs.Records.{narrow_count, record_count};
    ghost use Rattle.tables.specs.Rows.{rows};
    ghost use Rattle.conditions.specs.Report.{IsReportOf, IsGood};
    ghost use Rattle.book.specs.History.{replay};
    ghost use Rattle.book.specs.Book.{IsSound};
    ghost use Rattle.book.specs.Epochs.{HasCounted};
    ghost use Rattle.book.specs.Loggable.{AreLoggable};
    ghost use Rattle.tables.specs.Keys.{IsDistrictKey};
    ghost use Rattle.totals.specs.District.{AreDistrictTotals};

    /// What has committed, in order. Takes no memory.
    ///
    /// The committed tables, `replay K.run.first` of it, meet the conditions, and each entry's reply is the one that
    /// its transaction has at its place in the order. The book's seat of the board has counted as many commits, each
    /// with its epoch. Each entry is of a terminal of the run, and may be written to a log file.
    pub fn history(&self) -> &[Arc<Entry, Global>]
        ensures history { map arc_value result.now ≡ self.now.history }
        ensures counted { HasCounted self.now.seat self.now.history }
        ensures sound { IsSound K.run.past K.run.first self.now.written self.now.history (replay K.run.first self.now.history) }
        ensures loggable { AreLoggable K.run.first.scale K.parts self.now.history }
    {
        self.history.as_slice()
    }

    /// How many transactions have committed in this run: with the past ones, at most the commit cap. Constant time, no
    /// memory.
    pub fn commits(&self) -> u64
        ensures commits { result ≡ length self.now.history }
        ensures cap { K.run.past + result ≤ K.run.first.scale.commits }
        ensures few { result ≤ MAX_COMMITS }
    {
        self.history.len() as u64
    }

    /// What a narrow record holds in the committed tables: the columns of its row that change, or an index record's
    /// number, and nothing where it is absent. Constant time, no memory.
    pub fn record(&mut self, cells: &Cells, number: u32) -> Option<Payload>
        requires cells { cells.now ≡ K.run.cells }
        requires is_record { number < narrow_count K.run.first.scale }
        ensures same { self.new ≡ self.old }
        ensures held { result ≡ rows (replay K.run.first self.old.history) number }
    {
        cells.held(&mut self.pen, number)
    }

    /// What a wide record holds in the committed tables: the words of a customer's C_DATA. It is always there, since
    /// the tables are well-formed. Constant time, no memory.
    pub fn record_wide(&mut self, cells: &Cells, number: u32) -> Option<DataWords>
        requires cells { cells.now ≡ K.run.cells }
        requires is_record { (narrow_count K.run.first.scale ≤ number) × (number < record_count K.run.first.scale) }
        ensures same { self.new ≡ self.old }
        ensures held { result ≡ rows (replay K.run.first self.old.history) number }
    {
        cells.held_wide(&mut self.pen, number)
    }

    /// The committed tables, made of their records. Costs what populating costs, a look at each record, and a pass over
    /// the history. `OutOfMemory` is the only refusal.
    pub fn tables(&mut self, cells: &Cells) -> Result<Tables, Refusal>
        requires { cells.now ≡ K.run.cells }
        ensures same { self.new ≡ self.old }
        ensures tables { IfOk result (λ tables. database tables ≡ replay K.run.first self.old.history) }
        ensures sound { IfOk result (λ tables.
            IsSound K.run.past K.run.first self.old.written self.old.history (database tables)) }
        ensures only_memory { IfErr result (λ refusal. refusal ≡ OutOfMemory) }
    {
        let alloc = *self.history.allocator();
        let added = joined_rows(alloc, &self.rows, &self.history)?;
        tables_of(alloc, &self.population, cells, &mut self.pen, &added)
    }

    /// Which conditions the committed tables meet: all, as the type keeps. Costs one pass over the records, each of
    /// which is compared with the running totals, and takes no memory; no clause can ask that it looks at any.
    pub fn report(&mut self, cells: &Cells, _alloc: Global) -> Result<Report, Refusal>
        requires { cells.now ≡ K.run.cells }
        ensures same { self.new ≡ self.old }
        ensures report { IfOk result (IsReportOf (replay K.run.first self.old.history)) }
        ensures good { IfOk result IsGood }
        ensures only_memory { IfErr result (λ refusal. refusal ≡ OutOfMemory) }
    {
        let scale = self.population.scale();
        Ok(report_of(
            &scale,
            cells,
            &mut self.pen,
            self.totals.sums(),
            self.totals.bounds(),
        ))
    }

    /// A district's totals over the committed tables. Constant time, no memory.
    pub fn totals(&self, key: DistrictKey) -> DistrictTotals
        requires { IsDistrictKey K.run.first.scale key }
        ensures { AreDistrictTotals (replay K.run.first self.now.history) key result }
    {
        self.totals.of_district(key)
    }

    /// For proofs: a share with all parts of the ledger has as many commits as the history has entries. Changes
    /// neither book nor share.
    pub fn audit(&mut self, share: &mut Share<K>)
        ensures book { self.new ≡ self.old }
        ensures share { share.new ≡ share.old }
        ensures whole { share.old.parts ≡ K.parts → share.old.commits ≡ length self.old.history }
    {
        self.shares.audit(&mut share.part);
    }
}
