//! Payments on the small population: of the third customer, which is record 5, on its cells, and at an engine's
//! terminals.
ghost use Rattle.std.specs.Prelude.{◌≡◌, ◌<◌, length};
ghost use Rattle.cells.specs.Records.{at};
ghost use Rattle.cells.specs.Versions.{last_tid};
ghost use Rattle.readset.specs.Cells.{AreCellsOf};
ghost use Rattle.population.specs.Initial.{initial};

use crate::pairs::{Asked, good, outcome_of, second};
use crate::payments::{history_row, payment, payment_told};
use crate::stage::{CUSTOMER, DISTRICT, Stage, execute_on, open, store};
use crate::told::{Told, told_of};
use money::{MAX_MONEY, Payload, Refusal};
use readset::{ReadSet, Work};
use std::alloc::Global;
use std::sync::Wait;
use std::test::Fail;
use tables::{History, Input, PaymentInput};

/// The TID word and the data of a version.
#[derive(Clone, Copy, Debug, PartialEq, Eq)]
struct Held {
    word: u64,
    payload: Payload,
}

/// What was seen of a payment that was executed: of its three records, the version read and what each is to hold.
#[derive(Clone, Copy)]
struct Seen {
    input: Option<PaymentInput>,
    told: Told,
    reads: usize,
    writes: usize,
    read: Read,
    written: Written,
    history_row: Option<History>,
}

/// The versions read.
#[derive(Clone, Copy, Debug, PartialEq, Eq)]
struct Read {
    warehouse: Option<Held>,
    district: Option<Held>,
    customer: Option<Held>,
}

/// What the records are to hold.
#[derive(Clone, Copy, Debug, PartialEq, Eq)]
struct Written {
    warehouse: Option<Payload>,
    district: Option<Payload>,
    customer: Option<Payload>,
}

/// The version read of a record.
fn version_of(reads: &ReadSet, number: u32) -> Option<Held> {
    let version = reads.held(number)?;
    Some(Held {
        word: version.word.word(),
        payload: version.payload,
    })
}

/// The input, where it is a Payment's.
fn payment_input(input: &Input) -> Option<PaymentInput> {
    match input {
        Input::Payment(payment) => Some(*payment),
        _ => None,
    }
}

fn seen_of(work: &Work) -> Seen {
    Seen {
        input: payment_input(&work.input),
        told: told_of(&work.reply),
        reads: work.reads.len(),
        writes: work.writes.len(),
        read: Read {
            warehouse: version_of(&work.reads, 0),
            district: version_of(&work.reads, 1),
            customer: version_of(&work.reads, 5),
        },
        written: Written {
            warehouse: work.writes.value(0).flatten(),
            district: work.writes.value(1).flatten(),
            customer: work.writes.value(5).flatten(),
        },
        history_row: work.writes.history_row(),
    }
}

/// Executes a payment.
fn pay<R: Wait>(rt: &R, alloc: Global, stage: &mut Stage, amount: i64) -> Result<Seen, Refusal>
    requires scale { AreCellsOf (initial stage.old.population).scale stage.old.cells }
    requires reader { stage.old.reader.cells ≡ stage.old.cells }
    ensures population { stage.new.population ≡ stage.old.population }
    ensures cells { stage.new.cells ≡ stage.old.cells }
    ensures pen { stage.new.pen ≡ stage.old.pen }
    ensures reader { stage.new.reader.cells ≡ stage.old.reader.cells }
{
    let input = Input::payment(&stage.population.scale(), payment(3, amount))?;
    let work = execute_on(rt, alloc, stage, &input)?;
    Ok(seen_of(&work))
}

/// What a payment of 12.34 is to write, where it leaves this of the warehouse.
fn written_of_first(warehouse: Payload) -> Written {
    let customer = [(-2_234_i64).cast_unsigned(), 2_234, 2, 0, 0, 0, 0];
    Written {
        warehouse: Some(warehouse),
        district: Some([11_234, 11, 0, 0, 0, 0, 0]),
        customer: Some(customer),
    }
}

/// A version of the population.
fn populated(payload: Payload) -> Held {
    Held { word: 2, payload }
}

fn seen_of_first<R: Wait>(rt: &R, alloc: Global) -> Result<Seen, Fail> {
    let mut stage = open(rt, alloc)?;
    Ok(pay(rt, alloc, &mut stage, 1_234)?)
}

#[test]
fn a_payment(rt: HostRuntime) -> Result<(), Fail> {
    let seen = seen_of_first(&rt, rt.alloc())?;
    let wanted = written_of_first([21_234, 0, 0, 0, 0, 0, 0]);
    assert_eq!(rt; seen.input, Some(payment(3, 1_234)));
    assert_eq!(rt; seen.told, payment_told(3, -2_234));
    assert_eq!(rt; (seen.reads, seen.writes), (3, 3));
    assert_eq!(rt; seen.written, wanted);
    assert_eq!(rt; seen.history_row, Some(history_row(3, 1_234)));
    Ok(())
}

/// Executes a payment and stores what it is to write.
fn pay_and_store<R: Wait>(
    rt: &R,
    alloc: Global,
    stage: &mut Stage,
    amount: i64,
) -> Result<Seen, Refusal>
    requires count { length stage.old.cells.narrow ≡ 1085 }
    requires scale { AreCellsOf (initial stage.old.population).scale stage.old.cells }
    requires pen { stage.old.pen.cells ≡ stage.old.cells }
    requires reader { stage.old.reader.cells ≡ stage.old.cells }
    requires warehouse { last_tid (at stage.old.pen.all 0) ≡ 0 }
    requires district { last_tid (at stage.old.pen.all 1) ≡ 0 }
    requires customer { last_tid (at stage.old.pen.all 5) ≡ 0 }
    ensures scale { AreCellsOf (initial stage.new.population).scale stage.new.cells }
    ensures reader { stage.new.reader.cells ≡ stage.new.cells }
{
    let seen = pay(rt, alloc, stage, amount)?;
    store(rt, stage, 0, seen.written.warehouse);
    store(rt, stage, 1, seen.written.district);
    store(rt, stage, 5, seen.written.customer);
    Ok(seen)
}

fn pay_twice<R: Wait>(rt: &R, alloc: Global, stage: &mut Stage) -> Result<(Seen, Seen), Refusal>
    requires count { length stage.old.cells.narrow ≡ 1085 }
    requires scale { AreCellsOf (initial stage.old.population).scale stage.old.cells }
    requires pen { stage.old.pen.cells ≡ stage.old.cells }
    requires reader { stage.old.reader.cells ≡ stage.old.cells }
    requires warehouse { last_tid (at stage.old.pen.all 0) ≡ 0 }
    requires district { last_tid (at stage.old.pen.all 1) ≡ 0 }
    requires customer { last_tid (at stage.old.pen.all 5) ≡ 0 }
{
    let first = pay_and_store(rt, alloc, stage, 100)?;
    let after = pay(rt, alloc, stage, 500_000)?;
    Ok((first, after))
}

fn seen_of_two<R: Wait>(rt: &R, alloc: Global) -> Result<(Seen, Seen), Fail> {
    let mut stage = open(rt, alloc)?;
    Ok(pay_twice(rt, alloc, &mut stage)?)
}

#[test]
fn a_payment_after_another(rt: HostRuntime) -> Result<(), Fail> {
    let (first, after) = seen_of_two(&rt, rt.alloc())?;
    assert_eq!(rt;
        (first.told, after.told),
        (payment_told(3, -1_100), payment_told(3, -501_100))
    );
    let customer = [(-501_100_i64).cast_unsigned(), 501_100, 3, 0, 0, 0, 0];
    let wanted = Written {
        warehouse: Some([520_100, 0, 0, 0, 0, 0, 0]),
        district: Some([510_100, 11, 0, 0, 0, 0, 0]),
        customer: Some(customer),
    };
    assert_eq!(rt; after.written, wanted);
    Ok(())
}

/// A payment's outcome where one record has another value than the population's.
fn outcome<R: Wait>(
    rt: &R,
    alloc: Global,
    number: u32,
    value: Option<Payload>,
) -> Result<Result<Seen, Refusal>, Fail>
    requires { number < 1085 }
{
    let mut stage = open(rt, alloc)?;
    store(rt, &mut stage, number, value);
    Ok(pay(rt, alloc, &mut stage, 1_234))
}

fn seen_where_stored<R: Wait>(rt: &R, alloc: Global, warehouse: Payload) -> Result<Seen, Fail> {
    let mut stage = open(rt, alloc)?;
    store(rt, &mut stage, 0, Some(warehouse));
    Ok(pay(rt, alloc, &mut stage, 1_234)?)
}

#[test]
fn reads_between_the_stores_of_another(rt: HostRuntime) -> Result<(), Fail> {
    // Another payment of 1.00 has stored its warehouse and not yet its district.
    let warehouse = [20_100, 0, 0, 0, 0, 0, 0];
    let seen = seen_where_stored(&rt, rt.alloc(), warehouse)?;
    let stored = Held {
        word: 4_294_967_306,
        payload: warehouse,
    };
    let read = Read {
        warehouse: Some(stored),
        district: Some(populated(DISTRICT)),
        customer: Some(populated(CUSTOMER)),
    };
    let wanted = written_of_first([21_334, 0, 0, 0, 0, 0, 0]);
    assert_eq!(rt; seen.reads, 3);
    assert_eq!(rt; seen.read, read);
    assert_eq!(rt; seen.written, wanted);
    assert_eq!(rt; seen.told, payment_told(3, -2_234));
    Ok(())
}

fn is_stale<R: Wait>(
    rt: &R,
    alloc: Global,
    number: u32,
    value: Option<Payload>,
) -> Result<bool, Fail>
    requires { number < 1085 }
{
    let outcome = outcome(rt, alloc, number, value)?;
    Ok(matches!(outcome, Err(Refusal::Stale)))
}

#[test]
fn records_that_no_tables_miss(rt: HostRuntime) -> Result<(), Fail> {
    assert!(rt; is_stale(&rt, rt.alloc(), 0, None)?);
    assert!(rt; is_stale(&rt, rt.alloc(), 1, None)?);
    assert!(rt; is_stale(&rt, rt.alloc(), 5, None)?);
    Ok(())
}

#[test]
fn versions_that_no_tables_have(rt: HostRuntime) -> Result<(), Fail> {
    let limit = MAX_MONEY.cast_unsigned();
    assert!(rt; is_stale(&rt, rt.alloc(), 0, Some([limit + 1, 0, 0, 0, 0, 0, 0]))?);
    assert!(rt; !is_stale(&rt, rt.alloc(), 0, Some([limit, 0, 0, 0, 0, 0, 0]))?);
    assert!(rt; !is_stale(&rt, rt.alloc(), 6, None)?);
    Ok(())
}

#[test]
fn a_conflict_is_executed_again(rt: HostRuntime) -> Result<(), Fail> {
    let asked = (Asked::Payment(3), Asked::Payment(4));
    let outcome = outcome_of(&rt, rt.alloc(), asked)?;
    let again = second(Some(Refusal::Conflict), payment_told(4, -1_100));
    assert_eq!(rt; outcome, good(payment_told(3, -1_100), again));
    Ok(())
}
