//! An engine with two terminals over the small population: a transaction that one of them has executed, and its commit.
ghost use Rattle.std.specs.Prelude.{◌≡◌, length, IfOk, IfSome};
ghost use Rattle.tables.specs.Inputs.{IsInput};
ghost use Rattle.book.specs.Parts.{IsFresh, cells_of};

use crate::payments::payment;
use crate::stage::small;
use crate::told::{Told, told_of};
use book::{Done, Engine, Parts, Run, Seat, TerminalSeats};
use money::Refusal;
use readset::Work;
use std::alloc::Global;
use std::marker::Model;
use std::sync::Wait;
use tables::Input;
use transactions::execute;

pub(crate) fn parts<R: Wait>(rt: &R, alloc: Global) -> Result<Parts, Refusal>
    ensures fresh { IfOk result IsFresh }
    ensures cells { IfOk result (λ parts. length (cells_of parts).narrow ≡ 1085) }
    ensures wide { IfOk result (λ parts. length (cells_of parts).wide ≡ 20) }
{
    Parts::new(rt, alloc, small(alloc)?, 1, 2)
}

/// The seats of the two terminals.
pub(crate) fn both_of<K: Run>(seats: &mut TerminalSeats<K>) -> Option<(Seat<K>, Seat<K>)> {
    let left = seats.next()?;
    let right = seats.next()?;
    Some((left, right))
}

/// A transaction that a terminal has executed.
#[derive(Drop)]
pub(crate) struct Executed<K: Run> {
    pub(crate) seat: Seat<K>,
    pub(crate) input: Input,
    pub(crate) work: Work,
}

impl<K: Run> Model for Executed<K> {
    ghost use Rattle.std.specs.Prelude.{◌≡◌, length};
    ghost use Rattle.book.specs.Book.{IsWorkOf};

    ghost Value = { Unit {0} };

    ghost view = { λ e. tt };

    ghost invariant = { λ e. (e.work.input ≡ e.input)
        × IsWorkOf K.run.first K.run.cells e.seat.reader e.work };
}

/// Executes a transaction at a terminal.
pub(crate) fn execute_at<K: Run, R: Wait>(
    rt: &R,
    alloc: Global,
    engine: &Engine<K>,
    seat: Seat<K>,
    input: Input,
) -> Result<Executed<K>, Refusal>
    requires input { IsInput K.run.first.scale input }
{
    let mut seat = seat;
    let (cells, population) = (engine.cells(), engine.population());
    let work = execute(rt, alloc, cells, &mut seat.reader, population, &input)?;
    Ok(Executed { seat, input, work })
}

/// Executes a Payment of 1.00 by this customer.
pub(crate) fn pay<K: Run, R: Wait>(
    rt: &R,
    alloc: Global,
    engine: &Engine<K>,
    seat: Seat<K>,
    customer: u32,
) -> Result<Executed<K>, Refusal> {
    let scale = engine.population().scale();
    let input = Input::payment(&scale, payment(customer, 100))?;
    execute_at(rt, alloc, engine, seat, input)
}

/// A commit's number, its TID's word, and what is told.
pub(crate) type Committed = (u32, u64, Told);

/// Commits a transaction that a terminal has executed, and gives the seat and the input back.
pub(crate) fn commit_executed<K: Run, R: Wait>(
    rt: &R,
    engine: &Engine<K>,
    executed: Executed<K>,
) -> (Seat<K>, Input, Result<Committed, Refusal>)
    ensures input { IsInput K.run.first.scale result.1 }
{
    let Executed { seat, input, work } = executed;
    let Seat {
        mut reader,
        board,
        mut share,
    } = seat;
    let mut book = engine.lock(rt);
    let (own_board, cells) = (engine.board(), engine.cells());
    let committed = book
        .commit(rt, own_board, cells, &mut reader, &mut share, work)
        .map(|done| told_at(&done));
    drop(book);
    let seat = Seat {
        reader,
        board,
        share,
    };
    (seat, input, committed)
}

/// The next terminal executes a Payment of 1.00 by customer 3, and commits it.
pub(crate) fn pay_next<K: Run, R: Wait>(
    rt: &R,
    alloc: Global,
    engine: &Engine<K>,
    terminals: &mut TerminalSeats<K>,
) -> Result<Committed, Refusal> {
    let Some(seat) = terminals.next() else {
        return Err(Refusal::OutOfMemory);
    };
    let executed = pay(rt, alloc, engine, seat, 3)?;
    commit_executed(rt, engine, executed).2
}

/// Whether the conditions hold in the committed tables.
pub(crate) fn is_good<K: Run, R: Wait>(
    rt: &R,
    alloc: Global,
    engine: &Engine<K>,
) -> Result<bool, Refusal> {
    Ok(engine.lock(rt).report(engine.cells(), alloc)?.is_good())
}

fn told_at(done: &Done) -> Committed {
    (done.number(), done.tid().word(), told_of(done.reply()))
}

/// Executes a transaction while the book is free. Then, under its lock, commits it, or confirms that it is refused.
pub(crate) fn attempt<K: Run, R: Wait>(
    rt: &R,
    alloc: Global,
    engine: &Engine<K>,
    seat: &mut Seat<K>,
    input: &Input,
) -> Result<Committed, Refusal>
    requires input { IsInput K.run.first.scale input.now }
{
    let (board, cells, population) = (engine.board(), engine.cells(), engine.population());
    match execute(rt, alloc, cells, &mut seat.reader, population, input) {
        Ok(work) => engine
            .lock(rt)
            .commit(rt, board, cells, &mut seat.reader, &mut seat.share, work)
            .map(|done| told_at(&done)),
        Err(refusal) => Err(engine.lock(rt).confirmed(cells, input, refusal)),
    }
}
