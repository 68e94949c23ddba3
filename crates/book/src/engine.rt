//! The engine: the cells, which anyone reads, and the book under its lock.
ghost use Rattle.readset.specs.Cells.{AreCellsOf};
ghost use Rattle.std.specs.Prelude.{◌≡◌, ◌+◌, length, IfSome, IfNone};
ghost use Rattle.population.specs.Initial.{initial};
ghost use Rattle.tables.specs.Constant.{IsOf};
ghost use Rattle.board.specs.declared.rule.Role.TheVariants.{Clock, Terminal};
ghost use Rattle.board.specs.Seats.{new_seat};
ghost use Rattle.board.specs.Opening.{logger_seats};
ghost use Rattle.book.specs.Parts.{IsOpenedAs, IsLedgerOf, terminals_of};

use crate::book::Book;
use crate::entry::Entry;
use crate::parts::{Begun, BlankAnnals, Fresh, Parts, Records};
use crate::run::Run;
use crate::share::Share;
use annals::Annals;
use board::{Board, BoardSeats, ClockSeat, LoggerSeat, TerminalSeat};
use cells::{Cells, Reader};
use population::Population;
use std::alloc::Global;
use std::hint::spin_loop;
use std::marker::Model;
use std::sync::{Arc, Mutex, MutexGuard, Wait, ledger};
use std::thread::yield_now;

/// How often a thread tries the book's lock at first: for a microsecond or two, while a commit has it for three.
const TRIES: u32 = 16;

/// For how many pauses of its processor a thread leaves the lock alone between two of these tries.
const PAUSES: u32 = 16;

/// How often it then lets another thread run, which may be the one that has the lock, and tries again, before it
/// sleeps: some 200 microseconds where no other wants to run.
const TURNS: u32 = 200;

/// An engine: the population, the record cells, which terminals read without a lock, the board of epoch words, the
/// annals, and the book under one lock (Silo, section 4.1). Contracts see nothing of it but that it is of the run that `K` names.
#[derive(Drop)]
pub struct Engine<K: Run> {
    pub(crate) population: Arc<Population, Global>,
    pub(crate) cells: Cells,
    pub(crate) board: Board,
    pub(crate) annals: Arc<Annals<Entry>, Global>,
    pub(crate) book: Mutex<Book<K>>,
}

impl<K: Run> Model for Engine<K> {
    ghost use Rattle.population.specs.Initial.{initial};
    ghost use Rattle.std.specs.Arc.{arc_value};
    ghost use Rattle.book.specs.Keeps.{IsEngineOf};

    ghost Value = { Unit {0} };

    ghost view = { λ e. tt };

    ghost invariant = { λ e. IsEngineOf K.run K.parts
        (initial (arc_value e.population)) e.cells e.board (arc_value e.annals) };
}

impl<K: Run> Engine<K> {
    /// An engine in which nothing has committed behind what it begins with, which an audit of the whole share tells,
    /// and its seats. Takes no memory.
    pub fn open(parts: Parts) -> (Engine<K>, Seats<K>)
        requires run { IsOpenedAs parts K.run }
        requires ledger { IsLedgerOf parts K.name K.parts }
        ensures clock { result.1.clock ≡ new_seat K.run.board Clock }
        ensures loggers { result.1.loggers.items ≡ logger_seats K.run.board K.run.board.plan.loggers }
        ensures left { result.1.terminals.left ≡ terminals_of parts }
        ensures given { result.1.terminals.given ≡ 0 }
    {
        let Parts {
            population,
            lent,
            begun,
            history,
            fresh,
            blank,
        } = parts;
        let Begun {
            base: _,
            rows,
            past,
            totals,
        } = begun;
        let Fresh {
            records,
            board,
            seats,
            streams,
            lasts,
            blank: made,
        } = fresh;
        let BlankAnnals {
            annals,
            lent: lent_annals,
            annalist,
        } = made;
        let Records {
            cells,
            pen,
            readers,
        } = records;
        let BoardSeats {
            book: seat,
            clock,
            loggers,
            terminals,
        } = seats;
        // The accessor's contract says that the commit cap is at most 600,000.
        let _ = population.scale().commits();
        let (shares, share) = blank.open::<K>();
        let book = Book {
            pen,
            population: lent,
            past,
            rows,
            totals,
            history,
            streams,
            lasts,
            shares,
            seat,
            annals: lent_annals,
            annalist,
        };
        let engine = Engine {
            population,
            cells,
            board,
            annals,
            book: Mutex::new(book),
        };
        let terminals = TerminalSeats {
            readers,
            seats: terminals,
            share,
            given: 0,
        };
        let seats = Seats {
            clock,
            loggers,
            terminals,
        };
        (engine, seats)
    }

    /// The population: the run began with its tables, or with what past commits have made of them.
    pub fn population(&self) -> &Population
        ensures value { initial result.now ≡ K.run.population }
        ensures scale { (initial result.now).scale ≡ K.run.first.scale }
        ensures of_population { IsOf K.run.population K.run.first }
    {
        &self.population
    }

    /// The record cells: one for each record.
    pub fn cells(&self) -> &Cells
        ensures value { result.now ≡ K.run.cells }
        ensures count { AreCellsOf K.run.first.scale result.now }
    {
        &self.cells
    }

    /// The board of epoch words.
    pub fn board(&self) -> &Board
        ensures { result.now ≡ K.run.board }
    {
        &self.board
    }

    /// The annals of the run, which the book keeps: its history stands there, as far as a pass can know. They began
    /// where the board did.
    pub fn annals(&self) -> &Annals<Entry>
        ensures value { result.now ≡ K.run.annals }
        ensures base { K.run.annals.base ≡ K.run.board.plan.base }
    {
        &self.annals
    }

    /// The book, once no other thread has it. While the lock is free, the committed tables are consistent and are
    /// the history's serial replay: the type of `Book` keeps it. A thread that finds it taken tries again for a while
    /// before it sleeps, since to be woken takes longer than most wait.
    pub fn lock<R: Wait>(&self, rt: &R) -> MutexGuard<'_, Book<K>> {
        match self.tried() {
            Some(guard) => guard,
            None => self.book.lock(rt),
        }
    }

    /// The book, if another thread leaves it meanwhile.
    fn tried(&self) -> Option<MutexGuard<'_, Book<K>>> {
        for _ in 0..TRIES {
            if let Some(guard) = self.book.try_lock() {
                return Some(guard);
            }
            for _ in 0..PAUSES {
                spin_loop();
            }
        }
        for _ in 0..TURNS {
            yield_now();
            if let Some(guard) = self.book.try_lock() {
                return Some(guard);
            }
        }
        None
    }
}

/// The seats of an engine: what the clock, each logger, in order of their numbers, and each terminal are given.
#[derive(Drop)]
pub struct Seats<K: Run> {
    pub clock: ClockSeat,
    pub loggers: Vec<LoggerSeat>,
    pub terminals: TerminalSeats<K>,
}

/// What the terminals of an engine are given: a reader, a seat of the board and a share each.
#[derive(Drop)]
pub struct TerminalSeats<K: Run> {
    readers: Vec<Reader>,
    seats: Vec<TerminalSeat>,
    share: ledger::Share<K>,
    given: u16,
}

impl<K: Run> Model for TerminalSeats<K> {
    ghost use Rattle.std.specs.Prelude.{length};
    ghost use Rattle.book.specs.Keeps.{AreSeatsLeft};
    ghost use Rattle.book.specs.Seats.{SeatsView};

    ghost Value = { SeatsView };

    ghost view = { λ s. record { left = length s.readers.items; given = s.given } };

    ghost invariant = { λ s. AreSeatsLeft K.run K.parts
        s.readers.items s.seats.items s.share.parts s.share.amount s.given };
}

/// What one terminal is given: a reader of the run's cells, a seat of its board, and a share.
#[derive(Drop)]
pub struct Seat<K: Run> {
    pub reader: Reader,
    pub board: TerminalSeat,
    pub share: Share<K>,
    ghost reads: { reader.cells ≡ K.run.cells },
    ghost steps: { board.board ≡ K.run.board },
}

impl<K: Run> TerminalSeats<K> {
    /// The next terminal's seat, while there is one. Terminals are numbered from 0. Takes no memory.
    pub fn next(&mut self) -> Option<Seat<K>>
        ensures seat { IfSome result (λ seat. (seat.board ≡ new_seat K.run.board Terminal)
            × (seat.share ≡ record { terminal = self.old.given; parts = 1; commits = 0 })) }
        ensures left { IfSome result (λ seat. (self.old.left ≡ self.new.left + 1)
            × (self.new.given ≡ self.old.given + 1)) }
        ensures none { IfNone result ((self.old.left ≡ 0) × (self.new ≡ self.old)) }
    {
        let reader = self.readers.pop()?;
        let Some(board) = self.seats.pop() else {
            unreachable!()
        };
        let part = self.share.split_off(1, 0);
        let terminal = self.given;
        self.given = terminal + 1;
        Some(Seat {
            reader,
            board,
            share: Share { part, terminal },
        })
    }
}
