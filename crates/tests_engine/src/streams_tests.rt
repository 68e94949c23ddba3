//! What two loggers take of a run: the commits of their own terminals, and the marks with which D is published.
ghost use Rattle.std.specs.Prelude.{◌≡◌, ◌<◌, IfOk, IfSome};
ghost use Rattle.board.specs.Steps.{stored_mark};
ghost use Rattle.board.specs.Opening.{logger_seats};
ghost use Rattle.book.specs.Parts.{IsFresh, IsOpenedAs, IsLedgerOf, base_of, loggers_of};

use crate::engine::pay_next;
use crate::stage::small;
use board::{Board, ClockSeat, Keeper, LoggerSeat};
use book::{Engine, Parts, Run, Seats, TerminalSeats};
use money::Refusal;
use std::alloc::Global;
use std::marker::{Brand, Model};
use std::sync::Wait;
use std::test::Fail;

/// A file that keeps all that it is given.
#[derive(Drop)]
struct Kept {
    mark: u64,
}

impl Keeper for Kept {
    ghost mark = { λ f. f.mark };

    fn kept(&self) -> u64 {
        self.mark
    }
}

/// A logger, and the local mark that it has set.
#[derive(Drop)]
struct Logger {
    seat: LoggerSeat,
    mark: u64,
    ghost set: { stored_mark seat.board.plan.base seat.steps ≡ mark },
}

/// What a logger took, with the number, the TID's word and the terminal of the last entry, and the D that it published.
#[derive(Clone, Copy, Debug, PartialEq, Eq)]
struct Turn {
    logger: (u16, u16),
    first: u64,
    before: (u32, u64),
    entries: usize,
    last: Option<(u32, u64, u16)>,
    mark: u64,
    durable: u64,
}

/// A logger takes, keeps what it took, and publishes.
fn take_turn<K: Run, R: Wait>(
    rt: &R,
    engine: &Engine<K>,
    logger: &mut Logger,
    number: u16,
) -> Option<Turn>
    requires own { logger.old.seat.board ≡ K.run.board }
    requires number { number < K.run.board.plan.loggers }
    ensures { logger.new.seat.board ≡ K.run.board }
{
    let board = engine.board();
    let batch = engine.lock(rt).take(board, number);
    if batch.mark() < logger.mark {
        return None;
    }
    board.set_local(&mut logger.seat, &Kept { mark: batch.mark() });
    logger.mark = batch.mark();
    let durable = board.publish(&mut logger.seat);
    Some(Turn {
        logger: (batch.logger(), batch.loggers()),
        first: batch.first(),
        before: (batch.number_before(), batch.mark_before()),
        entries: batch.entries().len(),
        last: batch
            .entries()
            .last()
            .map(|entry| (entry.number, entry.tid.word(), entry.terminal)),
        mark: batch.mark(),
        durable,
    })
}

/// An engine with the seats of its clock, of two loggers and of its terminals.
#[derive(Drop)]
struct Stage<K: Run> {
    engine: Engine<K>,
    clock: ClockSeat,
    first: Logger,
    second: Logger,
    terminals: TerminalSeats<K>,
}

impl<K: Run> Model for Stage<K> {
    ghost use Rattle.std.specs.Prelude.{◌≡◌};

    ghost Value = { Unit {0} };

    ghost view = { λ s. tt };

    ghost invariant = { λ s. (s.clock.board ≡ K.run.board) × (s.first.seat.board ≡ K.run.board)
        × (s.second.seat.board ≡ K.run.board) × (K.run.board.plan.loggers ≡ 2) };
}

impl<K: Run> Stage<K> {
    fn advance(&mut self) -> Result<u64, Refusal> {
        self.engine.board().advance(&mut self.clock)
    }

    fn take_turns<R: Wait>(&mut self, rt: &R) -> Turns {
        (
            take_turn(rt, &self.engine, &mut self.first, 0),
            take_turn(rt, &self.engine, &mut self.second, 1),
        )
    }

    /// The turns in the next epoch, in which the next terminal has paid.
    fn pay_in_the_next_epoch<R: Wait>(&mut self, rt: &R, alloc: Global) -> Result<Turns, Refusal> {
        self.advance()?;
        pay_next(rt, alloc, &self.engine, &mut self.terminals)?;
        Ok(self.take_turns(rt))
    }

    /// The turns in epoch 3, in which the first terminal has paid, and in epoch 4, in which the second has.
    fn pay_in_two_epochs<R: Wait>(
        &mut self,
        rt: &R,
        alloc: Global,
    ) -> Result<(Turns, Turns), Refusal> {
        self.advance()?;
        let third = self.pay_in_the_next_epoch(rt, alloc)?;
        let fourth = self.pay_in_the_next_epoch(rt, alloc)?;
        Ok((third, fourth))
    }
}

/// Both loggers, of which none has set a local mark.
fn both(board: &Board, mut seats: Vec<LoggerSeat>) -> Option<(Logger, Logger)>
    requires seats { seats.items ≡ logger_seats board.now 2 }
    requires zero { board.now.plan.base ≡ 0 }
    ensures { IfSome result (λ pair. (pair.0.seat.board ≡ board.now) × (pair.1.seat.board ≡ board.now)) }
{
    let second = seats.pop()?;
    let first = seats.pop()?;
    Some((
        Logger {
            seat: first,
            mark: 0,
        },
        Logger {
            seat: second,
            mark: 0,
        },
    ))
}

/// An engine in epoch 1.
fn open<K: Run>(parts: Parts) -> Option<Stage<K>>
    requires run { IsOpenedAs parts K.run }
    requires ledger { IsLedgerOf parts K.name K.parts }
    requires loggers { (loggers_of parts ≡ 2) × (base_of parts ≡ 0) }
{
    let (engine, seats) = Engine::<K>::open(parts);
    let Seats {
        clock,
        loggers,
        terminals,
    } = seats;
    let (first, second) = both(engine.board(), loggers)?;
    Some(Stage {
        engine,
        clock,
        first,
        second,
        terminals,
    })
}

/// The turns of both loggers.
type Turns = (Option<Turn>, Option<Turn>);

fn turns_of<K: Run, R: Wait>(rt: &R, alloc: Global, parts: Parts) -> Result<(Turns, Turns), Refusal>
    requires run { IsOpenedAs parts K.run }
    requires ledger { IsLedgerOf parts K.name K.parts }
    requires loggers { (loggers_of parts ≡ 2) × (base_of parts ≡ 0) }
{
    let Some(mut stage) = open::<K>(parts) else {
        return Err(Refusal::OutOfMemory);
    };
    stage.pay_in_two_epochs(rt, alloc)
}

fn parts<R: Wait>(rt: &R, alloc: Global) -> Result<Parts, Refusal>
    ensures fresh { IfOk result IsFresh }
    ensures loggers { IfOk result (λ parts. (loggers_of parts ≡ 2) × (base_of parts ≡ 0)) }
{
    Parts::new(rt, alloc, small(alloc)?, 2, 2)
}

#[test]
fn each_logger_takes_what_its_terminals_committed(rt: HostRuntime) -> Result<(), Fail> {
    let parts = parts(&rt, rt.alloc())?;
    let (third, fourth) = turns_of::<Brand, _>(&rt, rt.alloc(), parts)?;
    let none = Turn {
        logger: (1, 2),
        first: 0,
        before: (0, 0),
        entries: 0,
        last: None,
        mark: 2,
        durable: 2,
    };
    let one = Turn {
        logger: (0, 2),
        entries: 1,
        last: Some((1, 3 << 32, 0)),
        durable: 0,
        ..none
    };
    assert_eq!(rt; third, (Some(one), Some(none)));
    let nothing_more = Turn {
        logger: (0, 2),
        first: 1,
        before: (1, 2),
        mark: 3,
        ..none
    };
    let two = Turn {
        before: (0, 2),
        entries: 1,
        last: Some((2, 4 << 32, 1)),
        mark: 3,
        durable: 3,
        ..none
    };
    assert_eq!(rt; fourth, (Some(nothing_more), Some(two)));
    Ok(())
}
