//! What the book answers of a district's totals: of the small population, and after a New-Order, a Payment and a
//! Delivery.
ghost use Rattle.std.specs.Prelude.{◌≡◌, IfSome};
ghost use Rattle.tables.specs.Keys.{IsDistrictKey};
ghost use Rattle.book.specs.Parts.{IsOpenedAs, IsLedgerOf};

use crate::engine::{attempt, parts};
use crate::pairs::{Asked, input_of};
use book::{Engine, Parts, Run, Seat};
use money::Refusal;
use std::alloc::Global;
use std::marker::Brand;
use std::sync::Wait;
use std::test::Fail;
use tables::{DistrictKey, Scale};
use totals::DistrictTotals;

/// The totals of the first district and of the second.
type Both = [DistrictTotals; 2];

/// The keys of both, where there are two.
fn keys_of(scale: &Scale) -> Option<(DistrictKey, DistrictKey)>
    ensures first { IfSome result (λ keys. IsDistrictKey scale.now keys.0) }
    ensures second { IfSome result (λ keys. IsDistrictKey scale.now keys.1) }
{
    if scale.warehouses() < 1 || scale.districts() < 2 {
        return None;
    }
    let key = |district: u32| DistrictKey {
        warehouse: 1,
        district,
    };
    Some((key(1), key(2)))
}

fn totals_of<K: Run, R: Wait>(rt: &R, engine: &Engine<K>) -> Result<Both, Refusal> {
    let Some((first, second)) = keys_of(&engine.population().scale()) else {
        return Err(Refusal::BadScale);
    };
    let book = engine.lock(rt);
    Ok([book.totals(first), book.totals(second)])
}

/// The totals once the terminal has committed what it asks for.
fn totals_after<K: Run, R: Wait>(
    rt: &R,
    alloc: Global,
    engine: &Engine<K>,
    seat: &mut Seat<K>,
    asked: Asked,
) -> Result<Both, Refusal> {
    let input = input_of(alloc, &engine.population().scale(), asked)?;
    attempt(rt, alloc, engine, seat, &input)?;
    totals_of(rt, engine)
}

/// The totals at first, and after each of the three.
#[derive(Clone, Copy, Debug, PartialEq, Eq)]
struct Course {
    fresh: Both,
    ordered: Both,
    paid: Both,
    delivered: Both,
}

fn course_at<K: Run, R: Wait>(
    rt: &R,
    alloc: Global,
    engine: &Engine<K>,
    seat: &mut Seat<K>,
) -> Result<Course, Refusal> {
    Ok(Course {
        fresh: totals_of(rt, engine)?,
        ordered: totals_after(rt, alloc, engine, seat, Asked::Order(3))?,
        paid: totals_after(rt, alloc, engine, seat, Asked::Payment(3))?,
        delivered: totals_after(rt, alloc, engine, seat, Asked::Delivery)?,
    })
}

fn course_of<K: Run, R: Wait>(rt: &R, alloc: Global, parts: Parts) -> Result<Course, Fail>
    requires run { IsOpenedAs parts K.run }
    requires ledger { IsLedgerOf parts K.name K.parts }
{
    let (engine, mut seats) = Engine::<K>::open(parts);
    let mut seat = seats.terminals.next().ok_or("seat")?;
    Ok(course_at(rt, alloc, &engine, &mut seat)?)
}

/// At first ten customers of each district have paid 10.00 and ordered five lines, and orders 8 to 10 wait. Then, in
/// district 1, one orders five lines, as order 11, and pays 1.00. Order 8 of each district is delivered last.
#[test]
fn a_districts_totals(rt: HostRuntime) -> Result<(), Fail> {
    let parts = parts(&rt, rt.alloc())?;
    let course = course_of::<Brand, _>(&rt, rt.alloc(), parts)?;
    let populated = DistrictTotals {
        paid: 10_000,
        line_counts: 50,
        lines: 50,
        waiting: 3,
        greatest_order: 10,
        least_waiting: 8,
        greatest_waiting: 10,
    };
    let ordered = DistrictTotals {
        line_counts: 55,
        lines: 55,
        waiting: 4,
        greatest_order: 11,
        greatest_waiting: 11,
        ..populated
    };
    let paid = DistrictTotals {
        paid: 10_100,
        ..ordered
    };
    let without_8 = |totals: DistrictTotals| DistrictTotals {
        waiting: totals.waiting - 1,
        least_waiting: 9,
        ..totals
    };
    let wanted = Course {
        fresh: [populated, populated],
        ordered: [ordered, populated],
        paid: [paid, populated],
        delivered: [without_8(paid), without_8(populated)],
    };
    assert_eq!(rt; course, wanted);
    Ok(())
}
