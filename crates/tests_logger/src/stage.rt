//! An engine with a paying terminal, and its loggers' turns.
ghost use Rattle.std.specs.Prelude.{◌≡◌, ◌<◌, ◌≤◌, [], IfOk, IfSome};
ghost use Rattle.board.specs.declared.rule.Role.TheVariants.{Logger as logger_role};
ghost use Rattle.board.specs.Seats.{new_seat};
ghost use Rattle.board.specs.Opening.{logger_seats};
ghost use Rattle.book.specs.Parts.{IsFresh, IsOpenedAs, IsLedgerOf, base_of, loggers_of};

use crate::desk::Desk;
use board::{Board, ClockSeat, LoggerSeat, TerminalSeat};
use book::{Batch, Engine, Parts, Run, Seats};
use log_disk::Disk;
use log_header::Header;
use logfile::LogFile;
use logger::Logger;
use money::Refusal;
use population::Population;
use std::alloc::Global;
use std::marker::Model;
use std::sync::Wait;
use tables::Scale;

/// The parts of an engine over one warehouse, two districts, ten customers a district and 20 items, with two terminals.
pub(crate) fn parts<R: Wait>(rt: &R, alloc: Global, loggers: u16) -> Result<Parts, Refusal>
    requires { (0 < loggers) × (loggers ≤ 8) }
    ensures fresh { IfOk result IsFresh }
    ensures loggers { IfOk result (λ parts. (loggers_of parts ≡ loggers) × (base_of parts ≡ 0)) }
{
    let scale = Scale::new(1, 2, 10, 20, 30, 1_000)?;
    Parts::new(rt, alloc, Population::plain(alloc, scale)?, loggers, 2)
}

/// An engine with its clock, one terminal, and a seat with which D is looked at.
#[derive(Drop)]
pub(crate) struct Stage<K: Run> {
    pub(crate) engine: Engine<K>,
    pub(crate) desk: Desk<K>,
    clock: ClockSeat,
    watch: TerminalSeat,
}

impl<K: Run> Model for Stage<K> {
    ghost use Rattle.std.specs.Prelude.{◌≡◌};

    ghost Value = { Unit {0} };

    ghost view = { λ s. tt };

    ghost invariant = { λ s. (s.clock.board ≡ K.run.board) × (s.watch.board ≡ K.run.board) };
}

impl<K: Run> Stage<K> {
    /// In the next epoch.
    pub(crate) fn advance(&mut self) -> Result<u64, Refusal> {
        self.engine.board().advance(&mut self.clock)
    }

    /// D.
    pub(crate) fn durable(&mut self) -> u64 {
        self.engine.board().durable(&mut self.watch)
    }

    /// The terminal commits a Payment of so many cents by this customer.
    pub(crate) fn pay<R: Wait>(
        &mut self,
        rt: &R,
        alloc: Global,
        customer: u32,
        cents: i64,
    ) -> Result<(), Refusal> {
        self.desk.pay(rt, alloc, &self.engine, customer, cents)
    }

    /// What a logger takes.
    pub(crate) fn take<R: Wait, D: Disk>(&self, rt: &R, logger: &Logger<D>) -> Batch
        requires { logger.now.seat.board ≡ K.run.board }
    {
        let header = logger.file().header();
        let board = self.engine.board();
        self.engine.lock(rt).take(board, header.logger)
    }

    /// A logger's turn, with a batch that it has taken.
    pub(crate) fn turn<D: Disk>(
        &self,
        logger: &mut Logger<D>,
        batch: &Batch,
    ) -> Result<u64, Refusal>
        requires { logger.old.seat.board ≡ K.run.board }
        ensures { logger.new.seat.board ≡ K.run.board }
    {
        if !logger.may_append(batch) {
            return Err(Refusal::Gap);
        }
        logger.turn(self.engine.board(), batch)
    }

    /// A logger takes, and has its turn.
    pub(crate) fn take_turn<R: Wait, D: Disk>(
        &self,
        rt: &R,
        logger: &mut Logger<D>,
    ) -> Result<u64, Refusal>
        requires { logger.old.seat.board ≡ K.run.board }
        ensures { logger.new.seat.board ≡ K.run.board }
    {
        let batch = self.take(rt, logger);
        self.turn(logger, &batch)
    }
}

/// An engine in epoch 1, with its loggers' seats.
pub(crate) fn open<K: Run>(
    alloc: Global,
    parts: Parts,
) -> Result<(Stage<K>, Vec<LoggerSeat>), Refusal>
    requires run { IsOpenedAs parts K.run }
    requires ledger { IsLedgerOf parts K.name K.parts }
    ensures { IfOk result (λ x. x.1.items ≡ logger_seats K.run.board K.run.board.plan.loggers) }
{
    let (engine, seats) = Engine::<K>::open(parts);
    let Seats {
        clock,
        loggers,
        mut terminals,
    } = seats;
    let (Some(first), Some(second)) = (terminals.next(), terminals.next()) else {
        return Err(Refusal::BadInput);
    };
    let stage = Stage {
        engine,
        desk: Desk::new(alloc, first)?,
        clock,
        watch: second.board,
    };
    Ok((stage, loggers))
}

/// A logger with a new file on an empty disk.
pub(crate) fn logger_on<D: Disk + Drop>(
    alloc: Global,
    population: &Population,
    disk: D,
    seat: LoggerSeat,
    logger: (u16, u16),
) -> Result<Logger<D>, Refusal>
    requires seat { seat ≡ new_seat seat.board (logger_role logger.0) }
    requires plan { (seat.board.plan.loggers ≡ logger.1) × (seat.board.plan.base ≡ 0) }
    requires logger { (logger.0 < logger.1) × (logger.1 ≤ 8) }
    requires empty { D.is_modelled → D.seen disk ≡ [] }
    ensures { IfOk result (λ made. made.seat ≡ seat) }
{
    let (number, loggers) = logger;
    let header = Header::new(population.scale(), population.seed(), number, loggers);
    let file = LogFile::create(alloc, disk, header)?;
    Ok(Logger::new(file, seat))
}
