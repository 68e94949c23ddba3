//! Order-Statuses and Stock-Levels on the small population: on its cells, and at an engine's terminals.
ghost use Rattle.std.specs.Prelude.{◌≡◌, ◌<◌};
ghost use Rattle.readset.specs.Cells.{AreCellsOf};
ghost use Rattle.population.specs.Initial.{initial};

use crate::new_orders::order_told;
use crate::pairs::{Asked, Committed, Outcome, good, input_of, outcome_of, second};
use crate::payments::payment_told;
use crate::query_inputs::status_told;
use crate::stage::{Stage, execute_on, open, store};
use crate::told::{Told, told_of};
use money::{MAX_MONEY, Payload, Refusal};
use std::alloc::Global;
use std::sync::Wait;
use std::test::Fail;

/// The record of customer 3.
const CUSTOMER: u32 = 5;

/// The number of its last order, which is order 3.
const LAST: u32 = 1_067;

/// That order.
const ORDER: u32 = 85;

/// The first line of that order.
const LINE: u32 = 173;

/// The first district.
const DISTRICT: u32 = 1;

/// The stock of item 1.
const STOCK: u32 = 1_043;

/// A value of a record: its words, or that it is absent.
type Value = Option<Payload>;

/// Executes what is asked for, and gives what is told.
pub(crate) fn ask<R: Wait>(
    rt: &R,
    alloc: Global,
    stage: &mut Stage,
    asked: Asked,
) -> Result<Told, Refusal>
    requires scale { AreCellsOf (initial stage.old.population).scale stage.old.cells }
    requires reader { stage.old.reader.cells ≡ stage.old.cells }
{
    let input = input_of(alloc, &stage.population.scale(), asked)?;
    let work = execute_on(rt, alloc, stage, &input)?;
    Ok(told_of(&work.reply))
}

fn asked_of_all<R: Wait>(rt: &R, alloc: Global, asked: Asked) -> Result<Told, Fail> {
    let mut stage = open(rt, alloc)?;
    Ok(ask(rt, alloc, &mut stage, asked)?)
}

/// What comes of a query where one record has another value than the population's.
fn outcome<R: Wait>(
    rt: &R,
    alloc: Global,
    asked: Asked,
    number: u32,
    value: Value,
) -> Result<Result<Told, Refusal>, Fail>
    requires { number < 1085 }
{
    let mut stage = open(rt, alloc)?;
    store(rt, &mut stage, number, value);
    Ok(ask(rt, alloc, &mut stage, asked))
}

#[test]
fn queries_on_cells(rt: HostRuntime) -> Result<(), Fail> {
    let status = asked_of_all(&rt, rt.alloc(), Asked::Status(3))?;
    let level = asked_of_all(&rt, rt.alloc(), Asked::Level(1))?;
    assert_eq!(rt; status, status_told(Some(3)));
    assert_eq!(rt; level, Told::Level(0));
    Ok(())
}

/// Whether a query is refused as stale where one record has this value.
fn is_stale<R: Wait>(
    rt: &R,
    alloc: Global,
    asked: Asked,
    number: u32,
    value: Value,
) -> Result<bool, Fail>
    requires { number < 1085 }
{
    let outcome = outcome(rt, alloc, asked, number, value)?;
    Ok(matches!(outcome, Err(Refusal::Stale)))
}

/// Whether a query is refused as stale where one record has this value, and where another has that.
fn are_stale<R: Wait>(
    rt: &R,
    alloc: Global,
    asked: Asked,
    first: (u32, Value),
    second: (u32, Value),
) -> Result<(bool, bool), Fail>
    requires first { first.0 < 1085 }
    requires second { second.0 < 1085 }
{
    let first = is_stale(rt, alloc, asked, first.0, first.1)?;
    let second = is_stale(rt, alloc, asked, second.0, second.1)?;
    Ok((first, second))
}

#[test]
fn a_status_of_records_that_no_tables_miss(rt: HostRuntime) -> Result<(), Fail> {
    let (customer, last) = ((CUSTOMER, None), (LAST, None));
    let stale = are_stale(&rt, rt.alloc(), Asked::Status(3), customer, last)?;
    assert_eq!(rt; stale, (true, true));
    Ok(())
}

#[test]
fn a_status_of_a_customer_that_no_tables_have(rt: HostRuntime) -> Result<(), Fail> {
    let balance = MAX_MONEY.cast_unsigned() + 1;
    let customer = (CUSTOMER, Some([balance, 0, 1, 0, 0, 0, 0]));
    let last = (LAST, Some([31, 0, 0, 0, 0, 0, 0]));
    let stale = are_stale(&rt, rt.alloc(), Asked::Status(3), customer, last)?;
    assert_eq!(rt; stale, (true, true));
    Ok(())
}

#[test]
fn a_status_of_an_order_that_no_tables_have(rt: HostRuntime) -> Result<(), Fail> {
    let order = (ORDER, Some([3, 1, 1, 16, 1, 0, 0]));
    let line = (LINE, Some([21, 1, 1, 5, 0, 0, 0]));
    let stale = are_stale(&rt, rt.alloc(), Asked::Status(3), order, line)?;
    assert_eq!(rt; stale, (true, true));
    Ok(())
}

/// Another order has stored its customer's LAST, and not yet itself: that there is none isn't told of any tables, and
/// never commits.
#[test]
fn a_status_between_the_stores_of_an_order(rt: HostRuntime) -> Result<(), Fail> {
    let last = Some([11, 0, 0, 0, 0, 0, 0]);
    let outcome = outcome(&rt, rt.alloc(), Asked::Status(3), LAST, last)?;
    assert_eq!(rt; outcome, Ok(status_told(None)));
    Ok(())
}

#[test]
fn a_level_of_records_that_no_tables_miss(rt: HostRuntime) -> Result<(), Fail> {
    let (district, stock) = ((DISTRICT, None), (STOCK, None));
    let stale = are_stale(&rt, rt.alloc(), Asked::Level(1), district, stock)?;
    assert_eq!(rt; stale, (true, true));
    Ok(())
}

#[test]
fn a_level_of_rows_that_no_tables_have(rt: HostRuntime) -> Result<(), Fail> {
    let district = (DISTRICT, Some([10_000, 32, 0, 0, 0, 0, 0]));
    let line = (LINE, Some([21, 1, 1, 5, 0, 0, 0]));
    let stale = are_stale(&rt, rt.alloc(), Asked::Level(1), district, line)?;
    assert_eq!(rt; stale, (true, true));
    Ok(())
}

#[test]
fn a_level_of_a_low_stock(rt: HostRuntime) -> Result<(), Fail> {
    let stock = Some([14, 36, 4, 0, 0, 0, 0]);
    let outcome = outcome(&rt, rt.alloc(), Asked::Level(1), STOCK, stock)?;
    assert_eq!(rt; outcome, Ok(Told::Level(1)));
    Ok(())
}

/// What came of an order of customer 3, and then of this query.
fn after_order(second: Committed) -> Outcome {
    good(order_told(11, 15_000, 15_525), second)
}

#[test]
fn a_status_beside_an_order_of_its_customer(rt: HostRuntime) -> Result<(), Fail> {
    let asked = (Asked::Order(3), Asked::Status(3));
    let outcome = outcome_of(&rt, rt.alloc(), asked)?;
    let again = second(Some(Refusal::Conflict), status_told(Some(11)));
    assert_eq!(rt; outcome, after_order(again));
    Ok(())
}

#[test]
fn a_status_beside_an_order_of_another(rt: HostRuntime) -> Result<(), Fail> {
    let asked = (Asked::Order(3), Asked::Status(4));
    let outcome = outcome_of(&rt, rt.alloc(), asked)?;
    assert_eq!(rt; outcome, after_order(second(None, status_told(Some(4)))));
    Ok(())
}

/// An order of district 1 changes stocks that a Stock-Level of district 2 reads.
#[test]
fn a_level_beside_an_order(rt: HostRuntime) -> Result<(), Fail> {
    let asked = (Asked::Order(3), Asked::Level(2));
    let outcome = outcome_of(&rt, rt.alloc(), asked)?;
    let again = second(Some(Refusal::Conflict), Told::Level(0));
    assert_eq!(rt; outcome, after_order(again));
    Ok(())
}

#[test]
fn a_level_beside_a_payment_elsewhere(rt: HostRuntime) -> Result<(), Fail> {
    let asked = (Asked::Payment(3), Asked::Level(2));
    let outcome = outcome_of(&rt, rt.alloc(), asked)?;
    let level = second(None, Told::Level(0));
    assert_eq!(rt; outcome, good(payment_told(3, -1_100), level));
    Ok(())
}
