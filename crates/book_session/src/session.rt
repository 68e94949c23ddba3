//! A terminal that has the book to itself.

ghost use Rattle.std.specs.Prelude.{◌≡◌, ◌⊎◌, ◌<◌, ◌≤◌, [], ◌∷◌, ◌++◌, length, IfOk, IfErr, OnOk, OnErr};
ghost use Rattle.tables.specs.Inputs.{IsInput};
ghost use Rattle.tables.specs.Records.{narrow_count, record_count};
ghost use Rattle.tables.specs.Rows.{rows};
ghost use Rattle.tables.specs.WellFormed.{IsWellFormed};
ghost use Rattle.population.specs.Initial.{initial};
ghost use Rattle.conditions.specs.Report.{IsReportOf};
ghost use Rattle.book.specs.History.{replay};
ghost use Rattle.book.specs.Next.{IsNextCommit, IsRefusedAt};
ghost use Rattle.book.specs.Done.{Done as DoneValue};
ghost use Rattle.money.specs.declared.refusal.Refusal.TheVariants.{OutOfMemory};

use crate::attempting::persist;
use book::{Book, Done, Engine, Run, Seat};
use conditions::Report;
use customer_data::DataWords;
use money::{Payload, Refusal};
use population::Population;
use std::alloc::Global;
use std::marker::Model;
use std::sync::{MutexGuard, Wait};
use tables::Input;

/// The one terminal of an engine whose run has no past. It has the book for as long as it lasts, since no other
/// terminal waits for it. Contracts see the book's history, and what the terminal was told.
#[derive(Drop)]
pub struct Session<'e, K: Run> {
    alloc: Global,
    engine: &'e Engine<K>,
    book: MutexGuard<'e, Book<K>>,
    seat: Seat<K>,
    dones: Vec<Done>,
}

impl<'e, K: Run> Model for Session<'e, K> {
    ghost use Rattle.book_session.specs.Session.{SessionView, IsSession};

    ghost Value = { SessionView };

    ghost view = { λ s. record { history = s.book.value.history; dones = s.dones.items } };

    ghost invariant = { λ s. IsSession K.run s.book.value s.dones.items };
}

impl<'e, K: Run> Session<'e, K> {
    /// A session in which nothing has committed, at the seat of an engine's only terminal. Takes no memory.
    pub fn open<R: Wait>(
        rt: &R,
        alloc: Global,
        engine: &'e Engine<K>,
        seat: Seat<K>,
    ) -> Session<'e, K>
        requires only { seat.share.parts ≡ K.parts }
        requires none { seat.share.commits ≡ 0 }
        requires begins { (K.run.past ≡ 0) × (K.run.first ≡ K.run.population) }
        ensures { result ≡ record { history = []; dones = [] } }
    {
        let mut seat = seat;
        let mut book = engine.lock(rt);
        book.audit(&mut seat.share);
        Session {
            alloc,
            engine,
            book,
            seat,
            dones: Vec::new(alloc),
        }
    }

    /// The population that the run began with.
    pub fn population(&self) -> &Population
        ensures { initial result.now ≡ K.run.first }
    {
        self.engine.population()
    }

    /// What one narrow record holds in the committed tables, which are well-formed: its row's columns that change, as
    /// words, or nothing where it is absent. Constant time, no memory.
    pub fn record(&mut self, number: u32) -> Option<Payload>
        requires { number < narrow_count K.run.first.scale }
        ensures same { self.new ≡ self.old }
        ensures words { result ≡ rows (replay K.run.first self.old.history) number }
        ensures well_formed { IsWellFormed (replay K.run.first self.old.history) }
    {
        // The history's contract says that the committed tables are well-formed.
        let _ = self.book.history();
        let engine = self.engine;
        self.book.record(engine.cells(), number)
    }

    /// The same of a wide record: the words of a customer's C_DATA. It is always there.
    pub fn record_wide(&mut self, number: u32) -> Option<DataWords>
        requires { (narrow_count K.run.first.scale ≤ number) × (number < record_count K.run.first.scale) }
        ensures same { self.new ≡ self.old }
        ensures words { result ≡ rows (replay K.run.first self.old.history) number }
        ensures well_formed { IsWellFormed (replay K.run.first self.old.history) }
    {
        // The history's contract says that the committed tables are well-formed.
        let _ = self.book.history();
        let engine = self.engine;
        self.book.record_wide(engine.cells(), number)
    }

    /// Commits a transaction, and tries again for as long as what it read isn't the latest. What the terminal is told
    /// is then the last of `dones`.
    ///
    /// # Errors
    ///
    /// At the committed tables: `ItemNotValid`, with the first such item, where an order's item isn't in ITEM; else
    /// `OrdersFull` where its district's order numbers are used up; else `CommitsFull` at the commit cap. `OutOfMemory`
    /// at any time. A refusal leaves all as it was.
    pub fn commit<R: Wait>(&mut self, rt: &R, input: &Input) -> Result<(), Refusal>
        requires input { IsInput K.run.first.scale input.now }
        ensures next { OnOk result ((done : DoneValue)
            × IsNextCommit 0 K.run.first self.old.history self.new.history input.now done
            × (self.new.dones ≡ self.old.dones ++ done ∷ [])) }
        ensures count { length self.old.dones ≡ length self.old.history }
        ensures refusals { IfErr result (λ refusal. (refusal ≡ OutOfMemory)
            ⊎ IsRefusedAt (replay K.run.first self.old.history) (length self.old.history) input.now refusal) }
        ensures err { OnErr result (self.new ≡ self.old) }
    {
        self.dones.reserve(1)?;
        let (alloc, engine) = (self.alloc, self.engine);
        let done = persist(rt, alloc, engine, &mut self.book, &mut self.seat, input)?;
        self.dones.push_reserved(done);
        Ok(())
    }

    /// What the terminal was told of its commits, in order.
    pub fn dones(&self) -> &[Done]
        ensures { result.now ≡ self.now.dones }
    {
        self.dones.as_slice()
    }

    /// The report of the committed tables, and what was committed. Costs what `Book::report` does.
    pub fn close(self) -> Result<(Report, Vec<Done>), Refusal>
        ensures report { IfOk result (λ closed. IsReportOf (replay K.run.first self.entry.history) closed.0) }
        ensures dones { IfOk result (λ closed. closed.1.items ≡ self.entry.dones) }
        ensures memory { IfErr result (λ refusal. refusal ≡ OutOfMemory) }
    {
        let Session {
            alloc,
            engine,
            mut book,
            seat: _,
            dones,
        } = self;
        let report = book.report(engine.cells(), alloc)?;
        Ok((report, dones))
    }
}
