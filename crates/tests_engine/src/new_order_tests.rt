//! New-Orders on the small population: on its cells, and at an engine's terminals.
ghost use Rattle.std.specs.Prelude.{◌≡◌, IfOk};
ghost use Rattle.readset.specs.Cells.{AreCellsOf};
ghost use Rattle.population.specs.Initial.{initial};
ghost use Rattle.book.specs.Parts.{IsFresh, IsOpenedAs, IsLedgerOf};

use crate::engine::{attempt, parts};
use crate::new_orders::{five, line, new_order, order_told};
use crate::pairs::{Asked, good, outcome_of, second};
use crate::stage::{Stage, execute_on, open};
use crate::told::{Told, told_of};
use book::{Engine, Parts, Run, Seat};
use money::{NO_PAYLOAD, Payload, Refusal};
use population::Population;
use readset::Work;
use std::alloc::Global;
use std::marker::Brand;
use std::sync::Wait;
use std::test::Fail;
use tables::{Reply, RequestedLine, Scale};

/// What was seen of an order that was executed: what it is told, S_QUANTITY after each line, how many records it reads
/// and writes, and what some of them are to hold.
#[derive(Clone, Copy)]
struct Seen {
    told: Told,
    stocks: [u32; 15],
    reads: usize,
    writes: usize,
    written: Written,
}

/// What the records of order 11 of customer 1 are to hold: its district, itself, two of its nine lines, the stocks of
/// items 1 and 2, and its customer's LAST.
#[derive(Clone, Copy, Debug, PartialEq, Eq)]
struct Written {
    district: Option<Payload>,
    new_order: Option<Payload>,
    order: Option<Payload>,
    first_line: Option<Payload>,
    last_line: Option<Payload>,
    stocks: [Option<Payload>; 2],
    last: Option<Payload>,
}

/// S_QUANTITY after each line.
fn stocks_of(reply: &Reply) -> [u32; 15] {
    let mut stocks = [0; 15];
    if let Reply::NewOrder(reply) = reply {
        for (stock, line) in stocks.iter_mut().zip(reply.lines.as_slice()) {
            *stock = line.stock;
        }
    }
    stocks
}

fn written_of(work: &Work) -> Written {
    let value = |number: u32| work.writes.value(number).flatten();
    Written {
        district: value(1),
        new_order: value(33),
        order: value(93),
        first_line: value(293),
        last_line: value(301),
        stocks: [value(1_043), value(1_044)],
        last: value(1_065),
    }
}

/// Executes an order of customer 1.
fn order<R: Wait>(
    rt: &R,
    alloc: Global,
    stage: &mut Stage,
    lines: &[RequestedLine],
) -> Result<Seen, Refusal>
    requires scale { AreCellsOf (initial stage.old.population).scale stage.old.cells }
    requires reader { stage.old.reader.cells ≡ stage.old.cells }
{
    let input = new_order(alloc, &stage.population.scale(), 1, lines)?;
    let work = execute_on(rt, alloc, stage, &input)?;
    Ok(Seen {
        told: told_of(&work.reply),
        stocks: stocks_of(&work.reply),
        reads: work.reads.len(),
        writes: work.writes.len(),
        written: written_of(&work),
    })
}

fn seen_of<R: Wait>(rt: &R, alloc: Global, lines: &[RequestedLine]) -> Result<Seen, Fail> {
    let mut stage = open(rt, alloc)?;
    Ok(order(rt, alloc, &mut stage, lines)?)
}

/// Four lines of item 1 and five of item 2.
#[test]
fn an_item_that_comes_again(rt: HostRuntime) -> Result<(), Fail> {
    let (one, two) = (line(1, 10), line(2, 10));
    let lines = [one, one, one, one, two, two, two, line(2, 1), two];
    let seen = seen_of(&rt, rt.alloc(), &lines)?;
    assert_eq!(rt; seen.told, order_told(11, 12_200, 12_627));
    let stocks = [40, 30, 20, 10, 40, 30, 20, 19, 100, 0, 0, 0, 0, 0, 0];
    assert_eq!(rt; seen.stocks, stocks);
    assert_eq!(rt; (seen.reads, seen.writes), (15, 15));
    let wanted = Written {
        district: Some([10_000, 12, 0, 0, 0, 0, 0]),
        new_order: Some(NO_PAYLOAD),
        order: Some([1, 1, 0, 9, 1, 0, 0]),
        first_line: Some([1, 1, 0, 10, 1_000, 0, 0]),
        last_line: Some([2, 1, 0, 10, 2_000, 0, 0]),
        stocks: [
            Some([10, 40, 4, 0, 0, 0, 0]),
            Some([100, 41, 5, 0, 0, 0, 0]),
        ],
        last: Some([11, 0, 0, 0, 0, 0, 0]),
    };
    assert_eq!(rt; seen.written, wanted);
    Ok(())
}

/// Commits an order of customer 3, and gives the commit's number and what is told.
fn commit<K: Run, R: Wait>(
    rt: &R,
    alloc: Global,
    engine: &Engine<K>,
    seat: &mut Seat<K>,
    lines: &[RequestedLine],
) -> Result<(u32, Told), Refusal> {
    let scale = engine.population().scale();
    let input = new_order(alloc, &scale, 3, lines)?;
    let (number, _, told) = attempt(rt, alloc, engine, seat, &input)?;
    Ok((number, told))
}

/// What came of an order of item 21, which isn't in ITEM, how much has committed then, and what came of an order of
/// items that are there.
type Tries = (
    Result<(u32, Told), Refusal>,
    usize,
    Result<(u32, Told), Refusal>,
);

fn try_both<K: Run, R: Wait>(rt: &R, alloc: Global, parts: Parts) -> Result<Tries, Fail>
    requires run { IsOpenedAs parts K.run }
    requires ledger { IsLedgerOf parts K.name K.parts }
{
    let (engine, mut seats) = Engine::<K>::open(parts);
    let mut seat = seats.terminals.next().ok_or("seat")?;
    let missing = commit(rt, alloc, &engine, &mut seat, &five(21, 10));
    let commits = engine.lock(rt).history().len();
    let there = commit(rt, alloc, &engine, &mut seat, &five(5, 1));
    Ok((missing, commits, there))
}

#[test]
fn an_item_that_is_missing(rt: HostRuntime) -> Result<(), Fail> {
    let parts = parts(&rt, rt.alloc())?;
    let (missing, commits, there) = try_both::<Brand, _>(&rt, rt.alloc(), parts)?;
    assert_eq!(rt; missing, Err(Refusal::ItemNotValid { item: 21 }));
    assert_eq!(rt; commits, 0);
    assert_eq!(rt; there, Ok((1, order_told(11, 1_500, 1_552))));
    Ok(())
}

/// Parts of an engine whose districts have all the orders that they may have.
fn full<R: Wait>(rt: &R, alloc: Global) -> Result<Parts, Refusal>
    ensures { IfOk result IsFresh }
{
    let scale = Scale::new(1, 2, 10, 20, 10, 1_000)?;
    Parts::new(rt, alloc, Population::plain(alloc, scale)?, 1, 1)
}

#[test]
fn no_order_number_is_left(rt: HostRuntime) -> Result<(), Fail> {
    let parts = full(&rt, rt.alloc())?;
    let (missing, commits, there) = try_both::<Brand, _>(&rt, rt.alloc(), parts)?;
    assert_eq!(rt; missing, Err(Refusal::ItemNotValid { item: 21 }));
    assert_eq!(rt; commits, 0);
    assert_eq!(rt; there, Err(Refusal::OrdersFull));
    Ok(())
}

#[test]
fn one_number_at_two_terminals(rt: HostRuntime) -> Result<(), Fail> {
    let asked = (Asked::Order(3), Asked::Order(4));
    let outcome = outcome_of(&rt, rt.alloc(), asked)?;
    let again = second(Some(Refusal::Conflict), order_told(12, 15_000, 15_525));
    assert_eq!(rt; outcome, good(order_told(11, 15_000, 15_525), again));
    Ok(())
}
