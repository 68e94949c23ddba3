//! Two transactions at two terminals, of which both are executed before either commits.
ghost use Rattle.std.specs.Prelude.{◌≡◌, IfOk};
ghost use Rattle.tables.specs.Inputs.{IsInput};
ghost use Rattle.book.specs.Parts.{IsOpenedAs, IsLedgerOf};

use crate::deliveries::delivery;
use crate::engine::{self, Executed, both_of, commit_executed, execute_at, is_good, parts};
use crate::new_orders::{five, new_order};
use crate::payments::payment;
use crate::query_inputs::{order_status, stock_level};
use crate::told::Told;
use book::{Engine, Parts, Run, Seat};
use money::Refusal;
use std::alloc::Global;
use std::marker::Brand;
use std::sync::Wait;
use std::test::Fail;
use tables::{Input, Scale};

/// What a terminal asks for: a Payment of 1.00 or an order of this customer, a Delivery, an Order-Status of this
/// customer, or a Stock-Level of this district.
#[derive(Clone, Copy)]
pub(crate) enum Asked {
    Payment(u32),
    Order(u32),
    Delivery,
    Status(u32),
    Level(u32),
}

pub(crate) fn input_of(alloc: Global, scale: &Scale, asked: Asked) -> Result<Input, Refusal>
    ensures { IfOk result (IsInput scale.now) }
{
    match asked {
        Asked::Payment(customer) => Input::payment(scale, payment(customer, 100)),
        Asked::Order(customer) => new_order(alloc, scale, customer, &five(5, 10)),
        Asked::Delivery => delivery(scale),
        Asked::Status(customer) => order_status(scale, customer),
        Asked::Level(district) => stock_level(scale, district),
    }
}

/// What came of a transaction: the refusal where its commit was refused at first, and the commit's number and what the
/// terminal was told in the end.
#[derive(Clone, Copy, Debug, PartialEq, Eq)]
pub(crate) struct Committed {
    pub(crate) refusal: Option<Refusal>,
    pub(crate) number: u32,
    pub(crate) told: Told,
}

/// What came of both transactions, and whether the conditions hold then.
#[derive(Clone, Copy, Debug, PartialEq, Eq)]
pub(crate) struct Outcome {
    pub(crate) first: Committed,
    pub(crate) second: Committed,
    pub(crate) is_good: bool,
}

/// That the first commits as number 1, and that the conditions hold in the end.
pub(crate) fn good(told: Told, second: Committed) -> Outcome {
    Outcome {
        first: Committed {
            refusal: None,
            number: 1,
            told,
        },
        second,
        is_good: true,
    }
}

/// What came of a transaction that commits second, once it was refused so at first, if it was.
pub(crate) fn second(refusal: Option<Refusal>, told: Told) -> Committed {
    Committed {
        refusal,
        number: 2,
        told,
    }
}

/// Commits what a terminal has executed. Where that is refused, executes it again, without the lock, and commits that.
fn commit<K: Run, R: Wait>(
    rt: &R,
    alloc: Global,
    engine: &Engine<K>,
    executed: Executed<K>,
) -> Result<Committed, Refusal> {
    let (seat, input, outcome) = commit_executed(rt, engine, executed);
    let (refusal, (number, _, told)) = match outcome {
        Ok(committed) => (None, committed),
        Err(refusal) => (Some(refusal), commit_again(rt, alloc, engine, seat, input)?),
    };
    Ok(Committed {
        refusal,
        number,
        told,
    })
}

fn commit_again<K: Run, R: Wait>(
    rt: &R,
    alloc: Global,
    engine: &Engine<K>,
    seat: Seat<K>,
    input: Input,
) -> Result<engine::Committed, Refusal>
    requires input { IsInput K.run.first.scale input }
{
    let executed = execute_at(rt, alloc, engine, seat, input)?;
    commit_executed(rt, engine, executed).2
}

fn commit_both<K: Run, R: Wait>(
    rt: &R,
    alloc: Global,
    engine: &Engine<K>,
    first: Executed<K>,
    second: Executed<K>,
) -> Result<Outcome, Refusal> {
    let first = commit(rt, alloc, engine, first)?;
    let second = commit(rt, alloc, engine, second)?;
    let is_good = is_good(rt, alloc, engine)?;
    Ok(Outcome {
        first,
        second,
        is_good,
    })
}

/// Executes what a terminal asks for.
fn execute<K: Run, R: Wait>(
    rt: &R,
    alloc: Global,
    engine: &Engine<K>,
    seat: Seat<K>,
    asked: Asked,
) -> Result<Executed<K>, Refusal> {
    let scale = engine.population().scale();
    let input = input_of(alloc, &scale, asked)?;
    execute_at(rt, alloc, engine, seat, input)
}

fn outcome_at<K: Run, R: Wait>(
    rt: &R,
    alloc: Global,
    engine: &Engine<K>,
    left: Seat<K>,
    right: Seat<K>,
    asked: (Asked, Asked),
) -> Result<Outcome, Refusal> {
    let first = execute(rt, alloc, engine, left, asked.0)?;
    let second = execute(rt, alloc, engine, right, asked.1)?;
    commit_both(rt, alloc, engine, first, second)
}

fn outcome_on<K: Run, R: Wait>(
    rt: &R,
    alloc: Global,
    parts: Parts,
    asked: (Asked, Asked),
) -> Result<Outcome, Fail>
    requires run { IsOpenedAs parts K.run }
    requires ledger { IsLedgerOf parts K.name K.parts }
{
    let (engine, mut seats) = Engine::<K>::open(parts);
    let (left, right) = both_of(&mut seats.terminals).ok_or("seats")?;
    Ok(outcome_at(rt, alloc, &engine, left, right, asked)?)
}

/// Has both transactions executed, and then commits the first before the second.
pub(crate) fn outcome_of<R: Wait>(
    rt: &R,
    alloc: Global,
    asked: (Asked, Asked),
) -> Result<Outcome, Fail> {
    let parts = parts(rt, alloc)?;
    outcome_on::<Brand, _>(rt, alloc, parts, asked)
}
