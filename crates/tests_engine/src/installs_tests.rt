//! Transactions that are executed while an order is being installed: between its stores each finds records of which
//! some are before it and some behind.
ghost use Rattle.std.specs.Prelude.{◌≡◌, ◌<◌, ℕ, length};
ghost use Rattle.population.specs.Initial.{initial};
ghost use Rattle.readset.specs.Cells.{AreCellsOf};
ghost use Rattle.cells.specs.Records.{at};
ghost use Rattle.cells.specs.Versions.{last_tid};

use crate::deliveries::delivery_told;
use crate::new_orders::order_told;
use crate::pairs::{Asked, input_of};
use crate::payments::payment_told;
use crate::query_inputs::status_told;
use crate::query_tests::ask;
use crate::stage::{Stage, execute_on, open, store};
use crate::told::Told;
use money::{Payload, Refusal};
use readset::WriteList;
use std::alloc::Global;
use std::sync::Wait;
use std::test::Fail;

/// How many writes an order of five lines has: D_NEXT_O_ID, its NEW-ORDER, its ORDER, five lines, five stocks, and its
/// customer's last order.
const WRITES: usize = 14;

/// The writes of an order of customer 3, by rising record number.
fn writes_of<R: Wait>(rt: &R, alloc: Global, stage: &mut Stage) -> Result<WriteList, Refusal>
    requires scale { AreCellsOf (initial stage.old.population).scale stage.old.cells }
    requires reader { stage.old.reader.cells ≡ stage.old.cells }
    ensures population { stage.new.population ≡ stage.old.population }
    ensures cells { stage.new.cells ≡ stage.old.cells }
    ensures pen { stage.new.pen ≡ stage.old.pen }
    ensures reader { stage.new.reader.cells ≡ stage.old.reader.cells }
{
    let input = input_of(alloc, &stage.population.scale(), Asked::Order(3))?;
    execute_on(rt, alloc, stage, &input)?.writes.into_list()
}

/// Stores what records are to hold, while their numbers rise.
fn install<R: Wait>(rt: &R, stage: &mut Stage, values: &[(u32, Option<Payload>)]) -> bool
    requires own { stage.old.pen.cells ≡ stage.old.cells }
    requires count { length stage.old.cells.narrow ≡ 1085 }
    requires first { (n : ℕ) → n < length stage.old.cells.narrow → last_tid (at stage.old.pen.all n) ≡ 0 }
    ensures population { stage.new.population ≡ stage.old.population }
    ensures cells { stage.new.cells ≡ stage.old.cells }
    ensures reader { stage.new.reader ≡ stage.old.reader }
{
    let mut next = 0;
    for (number, value) in values {
        if *number < next || *number >= 1_085 {
            return false;
        }
        store(rt, stage, *number, *value);
        next = *number + 1;
    }
    true
}

/// What is told where so many writes of the order are stored.
fn told_behind<R: Wait>(rt: &R, alloc: Global, count: usize, asked: Asked) -> Result<Told, Fail> {
    let mut stage = open(rt, alloc)?;
    let writes = writes_of(rt, alloc, &mut stage)?;
    let (values, _) = writes.parts();
    if values.len() != WRITES || !install(rt, &mut stage, &values[..count.min(WRITES)]) {
        return Err(Fail::from("writes"));
    }
    Ok(ask(rt, alloc, &mut stage, asked)?)
}

/// An order of the next number, which the first store takes.
fn next_order(count: usize) -> Told {
    order_told(if count == 0 { 11 } else { 12 }, 15_000, 15_525)
}

#[test]
fn each_transaction_returns_between_the_stores_of_an_order(rt: HostRuntime) -> Result<(), Fail> {
    for count in 0..=WRITES {
        // The last store is that of the customer's last order.
        let last = if count == WRITES { 11 } else { 3 };
        let all = [
            (Asked::Status(3), status_told(Some(last))),
            (Asked::Payment(3), payment_told(3, -1_100)),
            (Asked::Order(3), next_order(count)),
            (Asked::Order(4), next_order(count)),
            (Asked::Delivery, delivery_told(8)),
            (Asked::Level(1), Told::Level(0)),
        ];
        for (asked, told) in all {
            assert_eq!(rt; told_behind(&rt, rt.alloc(), count, asked)?, told);
        }
    }
    Ok(())
}
