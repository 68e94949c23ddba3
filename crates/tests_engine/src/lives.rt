//! What an engine leaves for another that goes on behind it: row after row of its tables, tested as recovered ones are.
ghost use Rattle.std.specs.Prelude.{◌≡◌, ◌<◌, drop, IfOk};
ghost use Rattle.tables.specs.Database.{database};
ghost use Rattle.tables.specs.Sizes.{sizes};
ghost use Rattle.population.specs.Initial.{initial};
ghost use Rattle.population_tables.specs.Plain.{IsPlain};
ghost use Rattle.board.specs.Words.{last_epoch};
ghost use Rattle.book.specs.Base.{MayBegin};
ghost use Rattle.book.specs.Parts.{IsOpenedAs, IsLedgerOf, population_of, first_of, past_of};

use crate::engine::attempt;
use crate::new_orders::{five, line, new_order};
use crate::payments::payment;
use book::{Base, Engine, Parts, Run, Seat};
use conditions_reach::is_in_reach;
use money::Refusal;
use population::Population;
use std::alloc::Global;
use std::sync::Wait;
use tables::{History, Input, RequestedLine, Scale, Tables};
use tables_laws::reach_leaves_room;

/// The last epoch of the earlier life.
const LAST: u64 = 7;

/// The small population, with five commits at most.
pub(crate) fn population(alloc: Global) -> Result<Population, Refusal>
    ensures { IfOk result (λ population. IsPlain (sizes 1 2 10 20 30 5) (initial population)) }
{
    Population::plain(alloc, Scale::new(1, 2, 10, 20, 30, 5)?)
}

/// Two orders, of five items and of one item five times, and a Payment of 1.00 by customer 3, and what that leaves.
pub(crate) fn earlier_life<K: Run, R: Wait>(
    rt: &R,
    alloc: Global,
    parts: Parts,
) -> Result<Base, Refusal>
    requires run { IsOpenedAs parts K.run }
    requires ledger { IsLedgerOf parts K.name K.parts }
    requires begins { (past_of parts ≡ 0) × (first_of parts ≡ population_of parts) }
    ensures base { IfOk result (λ base.
        MayBegin (first_of parts) (database base.tables) base.rows.items base.commits) }
    ensures epoch { IfOk result (λ base. base.epoch < last_epoch) }
{
    let (engine, mut seats) = Engine::<K>::open(parts);
    let Some(mut seat) = seats.terminals.next() else {
        return Err(Refusal::OutOfMemory);
    };
    order(rt, alloc, &engine, &mut seat, 3, &five(5, 10))?;
    order(rt, alloc, &engine, &mut seat, 4, &[line(1, 1); 5])?;
    pay(rt, alloc, &engine, &mut seat, 3)?;
    base_of(rt, alloc, &engine)
}

/// A New-Order of this customer.
fn order<K: Run, R: Wait>(
    rt: &R,
    alloc: Global,
    engine: &Engine<K>,
    seat: &mut Seat<K>,
    customer: u32,
    lines: &[RequestedLine],
) -> Result<(), Refusal> {
    let input = new_order(alloc, &engine.population().scale(), customer, lines)?;
    attempt(rt, alloc, engine, seat, &input)?;
    Ok(())
}

/// A Payment of 1.00 by this customer: its number and its TID's word.
pub(crate) fn pay<K: Run, R: Wait>(
    rt: &R,
    alloc: Global,
    engine: &Engine<K>,
    seat: &mut Seat<K>,
    customer: u32,
) -> Result<(u32, u64), Refusal> {
    let input = Input::payment(&engine.population().scale(), payment(customer, 100))?;
    let (number, tid, _) = attempt(rt, alloc, engine, seat, &input)?;
    Ok((number, tid))
}

/// The committed tables of an engine that began with its population's.
fn base_of<K: Run, R: Wait>(rt: &R, alloc: Global, engine: &Engine<K>) -> Result<Base, Refusal>
    requires { (K.run.past ≡ 0) × (K.run.first ≡ K.run.population) }
    ensures base { IfOk result (λ base. MayBegin K.run.first (database base.tables) base.rows.items base.commits) }
    ensures epoch { IfOk result (λ base. base.epoch < last_epoch) }
{
    let first = engine.population().tables().history.len();
    let mut book = engine.lock(rt);
    let commits = book.commits() as u32;
    let tables = book.tables(engine.cells())?;
    let rows = rows_behind(alloc, &tables, first)?;
    if !is_in_reach(commits, &tables) {
        return Err(Refusal::Damaged);
    }
    reach_leaves_room();
    Ok(Base {
        tables,
        rows,
        commits,
        epoch: LAST,
    })
}

/// The HISTORY rows behind so many first ones.
fn rows_behind(alloc: Global, tables: &Tables, first: usize) -> Result<Vec<History>, Refusal>
    ensures { IfOk result (λ rows. rows.items ≡ drop first (database tables.now).history) }
{
    if first > tables.history.len() {
        return Err(Refusal::Damaged);
    }
    let rows = &tables.history[first..];
    Ok(Vec::from_slice(alloc, rows)?)
}
