//! A terminal whose inputs run, another one that stands in for it, and their logger.
ghost use Rattle.std.specs.Prelude.{◌≡◌, IfOk};
ghost use Rattle.book.specs.Parts.{IsFresh, IsOpenedAs, IsLedgerOf, base_of, loggers_of};

use crate::again::Again;
use crate::looks::{Look, look_at};
use crate::orders::small;
use crate::roomy::Roomy;
use crate::standby::{commit_at, deck};
use board::ClockSeat;
use book::{Batch, Done, Engine, Parts, Run, Seat, Seats, TerminalSeats};
use log_header::Header;
use logfile::LogFile;
use logger::Logger;
use money::Refusal;
use program_script_text::print_reply;
use std::alloc::Global;
use std::fmt::Write;
use std::marker::{Brand, Model};
use std::sync::Wait;
use std::sync::atomic::{AtomicU64, Ordering};
use tables::Scale;
use terminals::{Calls, Outbox, Terminal};

/// How many inputs run.
const INPUTS: u32 = 40;

/// How many of them run before each turn of the logger.
const TURN: u32 = 8;

/// The seed of the inputs.
pub(crate) const SEED: u64 = 1;

/// An engine with its clock, a terminal, a seat for another one, its logger, and how many calls the log file's disk has
/// done.
#[derive(Drop)]
struct Desk<'a, K: Run> {
    engine: Engine<K>,
    clock: ClockSeat,
    terminal: Terminal<K>,
    others: TerminalSeats<K>,
    /// What the other one was told, if it stood in for the first.
    told: Option<Done>,
    logger: Logger<Roomy<'a>>,
    calls: &'a AtomicU64,
}

impl<'a, K: Run> Model for Desk<'a, K> {
    ghost use Rattle.std.specs.Prelude.{◌≡◌};

    ghost Value = { Unit {0} };

    ghost view = { λ d. tt };

    ghost invariant = { λ d. (d.clock.board ≡ K.run.board) × (d.logger.seat.board ≡ K.run.board) };
}

impl<K: Run> Desk<'_, K> {
    fn commits<R: Wait>(&self, rt: &R) -> u64 {
        self.engine.lock(rt).commits()
    }

    /// What stands there, and how many replies the terminal has released.
    fn look<R: Wait>(&self, rt: &R) -> (Look, usize) {
        let calls = self.calls.load(Ordering::SeqCst);
        let look = look_at(rt, &self.engine, self.logger.file(), calls);
        (look, self.terminal.released().len())
    }

    /// Runs all inputs.
    fn run_all<R: Wait>(
        &mut self,
        rt: &R,
        alloc: Global,
        again: &mut Again,
    ) -> Result<u64, Refusal> {
        let mut durable = 0;
        for place in 0..INPUTS {
            self.run_input(rt, alloc, again, place)?;
            if place % TURN == TURN - 1 {
                durable = self.turn(rt, again)?;
            }
        }
        Ok(durable)
    }

    /// Runs the terminal's next input, of this place among all. Where it is refused for want of memory, the other
    /// terminal executes and commits the same.
    fn run_input<R: Wait>(
        &mut self,
        rt: &R,
        alloc: Global,
        again: &mut Again,
        place: u32,
    ) -> Result<(), Refusal> {
        let before = self.look(rt);
        let mut gate = Calls::default();
        match self.terminal.one(rt, alloc, &self.engine, &mut gate) {
            Ok(_) | Err(Refusal::ItemNotValid { .. }) => Ok(()),
            Err(Refusal::OutOfMemory) => {
                again.note(self.look(rt) == before);
                self.stand_in(rt, alloc, place)
            }
            Err(refusal) => Err(refusal),
        }
    }

    /// The other terminal executes and commits the input of this place.
    fn stand_in<R: Wait>(&mut self, rt: &R, alloc: Global, place: u32) -> Result<(), Refusal> {
        let Some(seat) = self.others.next() else {
            return Err(Refusal::BadInput);
        };
        match commit_at(rt, alloc, &self.engine, seat, place) {
            Ok(done) => {
                self.told = Some(done);
                Ok(())
            }
            Err(Refusal::ItemNotValid { .. }) => Ok(()),
            Err(refusal) => Err(refusal),
        }
    }

    /// The logger's turn, in the next epoch. Answers D. By then each reply of the terminal is released, and none but
    /// those: so as many have waited as had committed. `Gap` where it isn't so.
    fn turn<R: Wait>(&mut self, rt: &R, again: &mut Again) -> Result<u64, Refusal> {
        self.engine.board().advance(&mut self.clock)?;
        let batch = self.take(rt);
        let durable = self.append(rt, again, &batch)?;
        self.terminal.acknowledge(self.engine.board());
        let told = self.terminal.released().len() as u64;
        if told.saturating_add(u64::from(self.told.is_some())) != self.commits(rt) {
            return Err(Refusal::Gap);
        }
        Ok(durable)
    }

    /// What the logger takes.
    fn take<R: Wait>(&self, rt: &R) -> Batch {
        let header = self.logger.file().header();
        let board = self.engine.board();
        self.engine.lock(rt).take(board, header.logger)
    }

    /// Appends what it took.
    fn append<R: Wait>(
        &mut self,
        rt: &R,
        again: &mut Again,
        batch: &Batch,
    ) -> Result<u64, Refusal> {
        if !self.logger.may_append(batch) {
            return Err(Refusal::Gap);
        }
        let before = self.look(rt);
        match self.logger.turn(self.engine.board(), batch) {
            Err(Refusal::OutOfMemory) => {
                again.note(self.look(rt) == before);
                self.logger.turn(self.engine.board(), batch)
            }
            outcome => outcome,
        }
    }

    /// Runs all inputs, and tells what came of them.
    fn run_and_tell<R: Wait>(
        &mut self,
        rt: &R,
        alloc: Global,
        again: &mut Again,
        text: &mut String,
    ) -> Result<(), Refusal> {
        let durable = self.run_all(rt, alloc, again)?;
        self.tell(rt, durable, text)
    }

    /// Tells D, how many have committed, whether all conditions hold, and what each commit was told, in their order.
    fn tell<R: Wait>(&self, rt: &R, durable: u64, text: &mut String) -> Result<(), Refusal> {
        let commits = self.commits(rt);
        let mut book = self.engine.lock(rt);
        let is_good = book
            .report(self.engine.cells(), *text.allocator())?
            .is_good();
        drop(book);
        writeln!(
            text,
            "durable {durable}, {commits} committed, all good: {is_good}"
        )?;
        for number in 1..=commits {
            if let Some(done) = self.done(number) {
                print_reply(done.reply(), text)?;
            }
        }
        Ok(())
    }

    /// What was told of the commit of this number: where it wasn't the terminal's, to the other one.
    fn done(&self, number: u64) -> Option<&Done> {
        for done in self.terminal.released() {
            if u64::from(done.number()) == number {
                return Some(done);
            }
        }
        self.told.as_ref()
    }
}

/// At an engine's first seats, with this file.
fn seated<'a, K: Run>(
    alloc: Global,
    parts: Parts,
    file: LogFile<Roomy<'a>>,
    calls: &'a AtomicU64,
) -> Result<Desk<'a, K>, Refusal>
    requires run { IsOpenedAs parts K.run }
    requires ledger { IsLedgerOf parts K.name K.parts }
    requires loggers { (loggers_of parts ≡ 1) × (base_of parts ≡ 0) }
    requires file { (file.header.logger ≡ 0) × (file.header.loggers ≡ 1) }
{
    let (engine, seats) = Engine::<K>::open(parts);
    let Seats {
        clock,
        mut loggers,
        terminals,
    } = seats;
    let Some(seat) = loggers.pop() else {
        return Err(Refusal::BadInput);
    };
    let logger = Logger::new(file, seat);
    let mut others = terminals;
    let terminal = terminal_of(alloc, &engine, &mut others)?;
    Ok(Desk {
        engine,
        clock,
        terminal,
        others,
        told: None,
        logger,
        calls,
    })
}

/// The next terminal, whose outbox has no room yet.
fn terminal_of<K: Run>(
    alloc: Global,
    engine: &Engine<K>,
    seats: &mut TerminalSeats<K>,
) -> Result<Terminal<K>, Refusal> {
    let Some(seat) = seats.next() else {
        return Err(Refusal::BadInput);
    };
    let Seat {
        reader,
        board,
        share,
    } = seat;
    let outbox = Outbox::new(alloc, board, 0)?;
    let deck = deck(engine.population().scale());
    Ok(Terminal::new(engine, reader, share, outbox, deck))
}

/// A new file of the one logger.
fn file<'a>(alloc: Global, calls: &'a AtomicU64) -> Result<LogFile<Roomy<'a>>, Refusal>
    ensures { IfOk result (λ file. (file.header.logger ≡ 0) × (file.header.loggers ≡ 1)) }
{
    let header = Header::new(Scale::new(1, 2, 10, 20, 30, 1_000)?, 0, 0, 1);
    LogFile::create(alloc, Roomy::new(alloc, calls)?, header)
}

/// The parts of an engine with one logger and two terminals.
fn parts<R: Wait>(rt: &R, alloc: Global) -> Result<Parts, Refusal>
    ensures fresh { IfOk result IsFresh }
    ensures loggers { IfOk result (λ parts. (loggers_of parts ≡ 1) × (base_of parts ≡ 0)) }
{
    Parts::new(rt, alloc, small(alloc)?, 1, 2)
}

/// Runs the inputs, and tells what came of them.
pub(crate) fn run_inputs<R: Wait>(
    rt: &R,
    alloc: Global,
    again: &mut Again,
    text: &mut String,
) -> Result<(), Refusal> {
    let calls = AtomicU64::new(0);
    let file = file(alloc, &calls)?;
    let parts = parts(rt, alloc)?;
    run_at::<Brand, R>(rt, alloc, again, parts, file, &calls, text)
}

fn run_at<'a, K: Run, R: Wait>(
    rt: &R,
    alloc: Global,
    again: &mut Again,
    parts: Parts,
    file: LogFile<Roomy<'a>>,
    calls: &'a AtomicU64,
    text: &mut String,
) -> Result<(), Refusal>
    requires run { IsOpenedAs parts K.run }
    requires ledger { IsLedgerOf parts K.name K.parts }
    requires loggers { (loggers_of parts ≡ 1) × (base_of parts ≡ 0) }
    requires file { (file.header.logger ≡ 0) × (file.header.loggers ≡ 1) }
{
    let mut desk = seated::<K>(alloc, parts, file, calls)?;
    desk.run_and_tell(rt, alloc, again, text)
}
