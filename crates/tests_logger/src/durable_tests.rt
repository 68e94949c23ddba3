//! Two loggers: a reply is released once both have made its epoch durable.
ghost use Rattle.std.specs.Prelude.{◌≡◌, [], IfOk};
ghost use Rattle.board.specs.Opening.{logger_seats};
ghost use Rattle.book.specs.Parts.{IsOpenedAs, IsLedgerOf, base_of, loggers_of};

use crate::stage::{Stage, logger_on, open, parts};
use board::{Board, LoggerSeat};
use book::{Parts, Run};
use log_disk::Memory;
use logger::Logger;
use money::Refusal;
use population::Population;
use std::alloc::Global;
use std::marker::Brand;
use std::sync::Wait;
use std::test::Fail;

/// What the loggers' turns answer, and then the acknowledgement.
#[derive(Clone, Copy, Debug, PartialEq, Eq)]
struct Answers {
    first: u64,
    second: u64,
    acknowledged: u64,
}

/// Both loggers.
type Both = (Logger<Memory>, Logger<Memory>);

fn both(
    alloc: Global,
    population: &Population,
    mut seats: Vec<LoggerSeat>,
    board: &Board,
) -> Result<Both, Refusal>
    requires seats { seats.items ≡ logger_seats board.now 2 }
    requires plan { (board.now.plan.loggers ≡ 2) × (board.now.plan.base ≡ 0) }
    ensures { IfOk result (λ both. (both.0.seat.board ≡ board.now) × (both.1.seat.board ≡ board.now)) }
{
    let (Some(second), Some(first)) = (seats.pop(), seats.pop()) else {
        return Err(Refusal::BadInput);
    };
    let first = logger_on(alloc, population, Memory::new(alloc), first, (0, 2))?;
    let second = logger_on(alloc, population, Memory::new(alloc), second, (1, 2))?;
    Ok((first, second))
}

/// Both have their turn, and then the terminal looks.
fn round<K: Run, R: Wait>(rt: &R, stage: &mut Stage<K>, both: &mut Both) -> Result<Answers, Refusal>
    requires { (both.old.0.seat.board ≡ K.run.board) × (both.old.1.seat.board ≡ K.run.board) }
    ensures { (both.new.0.seat.board ≡ K.run.board) × (both.new.1.seat.board ≡ K.run.board) }
{
    let first = stage.take_turn(rt, &mut both.0)?;
    let second = stage.take_turn(rt, &mut both.1)?;
    let acknowledged = stage.desk.acknowledge(&stage.engine);
    Ok(Answers {
        first,
        second,
        acknowledged,
    })
}

/// A round in epoch 3, in which the terminal has paid, and one in epoch 4.
fn rounds<K: Run, R: Wait>(
    rt: &R,
    alloc: Global,
    stage: &mut Stage<K>,
    both: &mut Both,
) -> Result<(Answers, Answers), Refusal>
    requires { (both.old.0.seat.board ≡ K.run.board) × (both.old.1.seat.board ≡ K.run.board) }
{
    stage.advance()?;
    stage.advance()?;
    stage.pay(rt, alloc, 3, 1_234)?;
    let third = round(rt, stage, both)?;
    stage.advance()?;
    let fourth = round(rt, stage, both)?;
    Ok((third, fourth))
}

fn rounds_of<K: Run, R: Wait>(
    rt: &R,
    alloc: Global,
    parts: Parts,
) -> Result<(Answers, Answers), Refusal>
    requires run { IsOpenedAs parts K.run }
    requires ledger { IsLedgerOf parts K.name K.parts }
    requires loggers { (loggers_of parts ≡ 2) × (base_of parts ≡ 0) }
{
    let (mut stage, seats) = open::<K>(alloc, parts)?;
    let mut both = both(
        alloc,
        stage.engine.population(),
        seats,
        stage.engine.board(),
    )?;
    rounds(rt, alloc, &mut stage, &mut both)
}

#[test]
fn a_reply_waits_for_both_loggers(rt: HostRuntime) -> Result<(), Fail> {
    let parts = parts(&rt, rt.alloc(), 2)?;
    let (third, fourth) = rounds_of::<Brand, _>(&rt, rt.alloc(), parts)?;
    let waits = Answers {
        first: 0,
        second: 2,
        acknowledged: 0,
    };
    assert_eq!(rt; third, waits);
    let released = Answers {
        first: 2,
        second: 3,
        acknowledged: 1,
    };
    assert_eq!(rt; fourth, released);
    Ok(())
}
