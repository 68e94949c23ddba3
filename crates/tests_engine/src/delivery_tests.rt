//! Deliveries on the small population: on its cells, and at an engine's terminals.
ghost use Rattle.std.specs.Prelude.{◌≡◌};
ghost use Rattle.readset.specs.Cells.{AreCellsOf};
ghost use Rattle.population.specs.Initial.{initial};

use crate::deliveries::{delivery, delivery_told};
use crate::pairs::{Asked, good, outcome_of, second};
use crate::stage::{Stage, execute_on, open};
use crate::told::{Told, told_of};
use money::{Payload, Refusal};
use readset::{Work, WriteSet};
use std::alloc::Global;
use std::sync::Wait;
use std::test::Fail;

/// What was seen of a Delivery that was executed: what it is told, how many records it reads and writes, and what some
/// of each district are to hold.
#[derive(Clone, Copy)]
struct Seen {
    told: Told,
    reads: usize,
    writes: usize,
    written: [Written; 2],
}

/// What a record is to hold, or that it is to be absent, where it is written.
type Value = Option<Option<Payload>>;

/// What the records of order 8 of a district are to hold: itself, the first and the last of its five lines, its
/// customer, and its district's OLDEST.
#[derive(Clone, Copy, Debug, PartialEq, Eq)]
struct Written {
    new_order: Value,
    order: Value,
    first_line: Value,
    last_line: Value,
    customer: Value,
    oldest: Value,
}

/// The numbers of those records.
#[derive(Clone, Copy)]
struct Places {
    new_order: u32,
    order: u32,
    first_line: u32,
    last_line: u32,
    customer: u32,
    oldest: u32,
}

/// Those of the first district and of the second.
const PLACES: [Places; 2] = [
    Places {
        new_order: 30,
        order: 90,
        first_line: 248,
        last_line: 252,
        customer: 10,
        oldest: 1_063,
    },
    Places {
        new_order: 60,
        order: 120,
        first_line: 698,
        last_line: 702,
        customer: 20,
        oldest: 1_064,
    },
];

fn written_of(writes: &WriteSet, places: Places) -> Written {
    Written {
        new_order: writes.value(places.new_order),
        order: writes.value(places.order),
        first_line: writes.value(places.first_line),
        last_line: writes.value(places.last_line),
        customer: writes.value(places.customer),
        oldest: writes.value(places.oldest),
    }
}

fn seen_of(work: &Work) -> Seen {
    let [first, second] = PLACES;
    Seen {
        told: told_of(&work.reply),
        reads: work.reads.len(),
        writes: work.writes.len(),
        written: [
            written_of(&work.writes, first),
            written_of(&work.writes, second),
        ],
    }
}

fn deliver_at<R: Wait>(rt: &R, alloc: Global, stage: &mut Stage) -> Result<Seen, Refusal>
    requires scale { AreCellsOf (initial stage.old.population).scale stage.old.cells }
    requires reader { stage.old.reader.cells ≡ stage.old.cells }
{
    let input = delivery(&stage.population.scale())?;
    let work = execute_on(rt, alloc, stage, &input)?;
    Ok(seen_of(&work))
}

fn deliver<R: Wait>(rt: &R, alloc: Global) -> Result<Seen, Fail> {
    let mut stage = open(rt, alloc)?;
    Ok(deliver_at(rt, alloc, &mut stage)?)
}

/// Of each district nine records are read, and all of them written: OLDEST, the order's two, its lines and its
/// customer's.
#[test]
fn a_delivery(rt: HostRuntime) -> Result<(), Fail> {
    let seen = deliver(&rt, rt.alloc())?;
    assert_eq!(rt; seen.told, delivery_told(8));
    assert_eq!(rt; (seen.reads, seen.writes), (18, 18));
    let words = |words: Payload| Some(Some(words));
    let written = Written {
        new_order: Some(None),
        order: words([8, 1, 4, 5, 1, 0, 0]),
        first_line: words([1, 1, 7, 5, 100, 0, 0]),
        last_line: words([5, 1, 7, 5, 500, 0, 0]),
        customer: words([500, 1_000, 1, 1, 0, 0, 0]),
        oldest: words([9, 0, 0, 0, 0, 0, 0]),
    };
    assert_eq!(rt; seen.written, [written; 2]);
    Ok(())
}

#[test]
fn one_order_at_two_terminals(rt: HostRuntime) -> Result<(), Fail> {
    let asked = (Asked::Delivery, Asked::Delivery);
    let outcome = outcome_of(&rt, rt.alloc(), asked)?;
    let again = second(Some(Refusal::Conflict), delivery_told(9));
    assert_eq!(rt; outcome, good(delivery_told(8), again));
    Ok(())
}
