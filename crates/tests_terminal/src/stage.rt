//! An engine with a terminal and its rival.
ghost use Rattle.std.specs.Prelude.{◌≡◌, IfOk};
ghost use Rattle.book.specs.Parts.{IsFresh, IsOpenedAs, IsLedgerOf};

use crate::rival::{Payer, Rival};
use book::{Engine, Parts, Run, Seat, Seats};
use money::Refusal;
use population::Population;
use std::alloc::Global;
use std::sync::Wait;
use tables::Scale;
use terminals::{Calls, Gate, Outbox, Terminal};
use terminals_deck::{Deck, Settings};

/// What came of an input, and the calls that the gate has had by then.
#[derive(Clone, Copy, Debug, PartialEq, Eq)]
pub(crate) struct Seen {
    pub(crate) outcome: Result<u64, Refusal>,
    pub(crate) calls: Calls,
}

/// The parts of an engine over one warehouse, two districts, ten customers a district and 20 items, with two terminals
/// and these caps.
pub(crate) fn parts<R: Wait>(
    rt: &R,
    alloc: Global,
    orders: u32,
    commits: u32,
) -> Result<Parts, Refusal>
    ensures { IfOk result IsFresh }
{
    let scale = Scale::new(1, 2, 10, 20, orders, commits)?;
    Parts::new(rt, alloc, Population::plain(alloc, scale)?, 1, 2)
}

/// Runs the first two inputs of a deck of this seed at a terminal before whose commits, so often, its rival pays.
pub(crate) fn two_inputs<K: Run, R: Wait>(
    rt: &R,
    alloc: Global,
    parts: Parts,
    seed: u64,
    rivals: u32,
) -> Result<(Seen, Seen), Refusal>
    requires run { IsOpenedAs parts K.run }
    requires ledger { IsLedgerOf parts K.name K.parts }
{
    let (engine, seats) = Engine::<K>::open(parts);
    let Seats {
        clock: _,
        loggers: _,
        mut terminals,
    } = seats;
    let (Some(first), Some(second)) = (terminals.next(), terminals.next()) else {
        return Err(Refusal::BadInput);
    };
    let mut gate = Rival {
        rt,
        alloc,
        engine: &engine,
        payer: Payer::new(second),
        left: rivals,
        calls: Calls::default(),
    };
    let mut terminal = terminal_at(alloc, &engine, first, seed)?;
    Ok((
        one(rt, alloc, &engine, &mut terminal, &mut gate),
        one(rt, alloc, &engine, &mut terminal, &mut gate),
    ))
}

/// A terminal at a seat, with a deck of this seed.
fn terminal_at<K: Run>(
    alloc: Global,
    engine: &Engine<K>,
    seat: Seat<K>,
    seed: u64,
) -> Result<Terminal<K>, Refusal> {
    let Seat {
        reader,
        board,
        share,
    } = seat;
    let outbox = Outbox::new(alloc, board, 2)?;
    let deck = Deck::new(engine.population().scale(), Settings::usual(), seed, 0);
    Ok(Terminal::new(engine, reader, share, outbox, deck))
}

/// Runs the next input.
fn one<'a, K: Run, R: Wait>(
    rt: &R,
    alloc: Global,
    engine: &Engine<K>,
    terminal: &mut Terminal<K>,
    gate: &mut Rival<'a, K, R>,
) -> Seen {
    let outcome = terminal.one(rt, alloc, engine, gate);
    Seen {
        outcome,
        calls: gate.calls,
    }
}
