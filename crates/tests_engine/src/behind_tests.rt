//! An engine behind the tables that an earlier one has left: what that has committed counts, and the rest goes on.
ghost use Rattle.std.specs.Prelude.{◌≡◌, IfOk};
ghost use Rattle.book.specs.Parts.{IsFresh, IsOpenedAs, IsLedgerOf, loggers_of};

use crate::lives::{earlier_life, pay, population};
use book::{Engine, Parts, Run, Seat};
use money::{Cents, Refusal};
use population_tables::plain_tables_are_one;
use std::alloc::Global;
use std::marker::Brand;
use std::sync::Wait;
use std::test::Fail;
use tables::DistrictKey;

/// A Payment's number and its TID's word, and what the logger takes then: its place, the number and the mark before it,
/// how many entries, and its own mark.
#[derive(Clone, Copy, Debug, PartialEq, Eq)]
struct Taken {
    paid: (u32, u64),
    first: u64,
    before: (u32, u64),
    entries: usize,
    mark: u64,
}

/// Pays, and takes what that has committed.
fn pay_and_take<K: Run, R: Wait>(
    rt: &R,
    alloc: Global,
    engine: &Engine<K>,
    seat: &mut Seat<K>,
) -> Result<Taken, Refusal>
    requires loggers { K.run.board.plan.loggers ≡ 1 }
{
    let paid = pay(rt, alloc, engine, seat, 4)?;
    let batch = engine.lock(rt).take(engine.board(), 0);
    Ok(Taken {
        paid,
        first: batch.first(),
        before: (batch.number_before(), batch.mark_before()),
        entries: batch.entries().len(),
        mark: batch.mark(),
    })
}

/// What the committed tables have: W_YTD, D_NEXT_O_ID of the first district, the number of HISTORY rows, and whether
/// they meet all conditions.
#[derive(Clone, Copy, Debug, PartialEq, Eq)]
struct Standing {
    year_to_date: Option<Cents>,
    next_order: Option<u32>,
    history: usize,
    is_good: bool,
}

fn standing_of<K: Run, R: Wait>(
    rt: &R,
    alloc: Global,
    engine: &Engine<K>,
) -> Result<Standing, Refusal> {
    let key = DistrictKey {
        warehouse: 1,
        district: 1,
    };
    let mut book = engine.lock(rt);
    let is_good = book.report(engine.cells(), alloc)?.is_good();
    let tables = book.tables(engine.cells())?;
    Ok(Standing {
        year_to_date: tables.warehouses.get(&1).map(|row| row.year_to_date),
        next_order: tables.districts.get(&key).map(|row| row.next_order),
        history: tables.history.len(),
        is_good,
    })
}

/// The later life: where it begins, two Payments in two epochs, a third that the commit cap refuses, and where it ends.
#[derive(Clone, Copy, Debug, PartialEq, Eq)]
struct Life {
    began: Standing,
    taken: [Taken; 2],
    refusal: Option<Refusal>,
    ended: Standing,
}

fn later_life<K: Run, R: Wait>(rt: &R, alloc: Global, parts: Parts) -> Result<Life, Refusal>
    requires run { IsOpenedAs parts K.run }
    requires ledger { IsLedgerOf parts K.name K.parts }
    requires loggers { loggers_of parts ≡ 1 }
{
    let (engine, mut seats) = Engine::<K>::open(parts);
    let Some(mut seat) = seats.terminals.next() else {
        return Err(Refusal::OutOfMemory);
    };
    let began = standing_of(rt, alloc, &engine)?;
    let first = pay_and_take(rt, alloc, &engine, &mut seat)?;
    engine.board().advance(&mut seats.clock)?;
    let second = pay_and_take(rt, alloc, &engine, &mut seat)?;
    Ok(Life {
        began,
        taken: [first, second],
        refusal: pay(rt, alloc, &engine, &mut seat, 4).err(),
        ended: standing_of(rt, alloc, &engine)?,
    })
}

/// The parts of an engine behind what an earlier one over the same population has left, whose last epoch was 7.
fn parts_behind<R: Wait>(rt: &R, alloc: Global) -> Result<Parts, Refusal>
    ensures fresh { IfOk result IsFresh }
    ensures loggers { IfOk result (λ parts. loggers_of parts ≡ 1) }
{
    plain_tables_are_one();
    let earlier = population(alloc)?;
    let parts = Parts::new(rt, alloc, earlier, 1, 1)?;
    let base = earlier_life::<Brand, _>(rt, alloc, parts)?;
    let later = population(alloc)?;
    Parts::behind(rt, alloc, later, base, 1, 1)
}

#[test]
fn an_engine_goes_on_behind_the_tables_of_another(rt: HostRuntime) -> Result<(), Fail> {
    let parts = parts_behind(&rt, rt.alloc())?;
    let life = later_life::<Brand, _>(&rt, rt.alloc(), parts)?;
    let began = Standing {
        year_to_date: Some(Cents::new(20_100)),
        next_order: Some(13),
        history: 21,
        is_good: true,
    };
    let ended = Standing {
        year_to_date: Some(Cents::new(20_300)),
        history: 23,
        ..began
    };
    let first = Taken {
        paid: (4, 8 << 32),
        first: 0,
        before: (0, 7),
        entries: 1,
        mark: 7,
    };
    let second = Taken {
        paid: (5, 9 << 32),
        first: 1,
        before: (4, 7),
        mark: 8,
        ..first
    };
    let wanted = Life {
        began,
        taken: [first, second],
        refusal: Some(Refusal::CommitsFull),
        ended,
    };
    assert_eq!(rt; life, wanted);
    Ok(())
}
