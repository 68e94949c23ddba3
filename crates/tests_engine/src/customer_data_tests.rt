//! Payments of customers with good and bad credit, and what they leave of C_DATA (TPC-C 2.5.2.2): every tenth customer
//! has bad credit. The wide cells begin at 1,085, so that of customer 10 in the first district is 1,094.
ghost use Rattle.std.specs.Prelude.{◌≡◌, length};
ghost use Rattle.book.specs.Parts.{IsOpenedAs, IsLedgerOf, cells_of};

use crate::engine::{attempt, parts};
use crate::payments::payment;
use crate::stage::{execute_on, open};
use book::{Engine, Parts, Run, Seat};
use customer_data::{DataWords, words_of};
use money::Refusal;
use std::alloc::Global;
use std::marker::Brand;
use std::sync::Wait;
use std::test::Fail;
use tables::Input;

/// What a Payment of 12.34 by customer 10 puts at the left of C_DATA: the customer, its district and warehouse, the
/// paying district and warehouse, and the amount.
const PAYMENT: &[u8; 17] = b"10 1 1 1 1 12.34|";

/// How many records a Payment of a customer reads, and how many it writes.
fn counts_of<R: Wait>(rt: &R, alloc: Global, customer: u32) -> Result<(usize, usize), Fail> {
    let mut stage = open(rt, alloc)?;
    let input = Input::payment(&stage.population.scale(), payment(customer, 1_234))?;
    let work = execute_on(rt, alloc, &mut stage, &input)?;
    Ok((work.reads.len(), work.writes.len()))
}

#[test]
fn good_credit_leaves_data_alone(rt: HostRuntime) -> Result<(), Fail> {
    assert_eq!(rt; counts_of(&rt, rt.alloc(), 3)?, (3, 3));
    assert_eq!(rt; counts_of(&rt, rt.alloc(), 10)?, (4, 4));
    Ok(())
}

/// Executes a Payment of 12.34 by customer 10, and commits it.
fn pay<K: Run, R: Wait>(
    rt: &R,
    alloc: Global,
    engine: &Engine<K>,
    seat: &mut Seat<K>,
) -> Result<(), Refusal> {
    let input = Input::payment(&engine.population().scale(), payment(10, 1_234))?;
    attempt(rt, alloc, engine, seat, &input)?;
    Ok(())
}

/// The same so many times.
fn pay_times<K: Run, R: Wait>(
    rt: &R,
    alloc: Global,
    engine: &Engine<K>,
    seat: &mut Seat<K>,
    times: u32,
) -> Result<(), Refusal> {
    for _turn in 0..times {
        pay(rt, alloc, engine, seat)?;
    }
    Ok(())
}

/// C_DATA of customer 10 in the committed tables, as words.
fn data_of<K: Run, R: Wait>(rt: &R, engine: &Engine<K>) -> Option<DataWords>
    requires narrow { length K.run.cells.narrow ≡ 1085 }
    requires wide { length K.run.cells.wide ≡ 20 }
{
    engine.lock(rt).record_wide(engine.cells(), 1_094)
}

/// The same of an engine of these parts after so many such Payments.
fn data_after<K: Run, R: Wait>(
    rt: &R,
    alloc: Global,
    parts: Parts,
    payments: u32,
) -> Result<Option<DataWords>, Fail>
    requires run { IsOpenedAs parts K.run }
    requires ledger { IsLedgerOf parts K.name K.parts }
    requires narrow { length (cells_of parts).narrow ≡ 1085 }
    requires wide { length (cells_of parts).wide ≡ 20 }
{
    let (engine, mut seats) = Engine::<K>::open(parts);
    let mut seat = seats.terminals.next().ok_or("seat")?;
    pay_times(rt, alloc, &engine, &mut seat, payments)?;
    Ok(data_of(rt, &engine))
}

#[test]
fn one_payment_of_bad_credit(rt: HostRuntime) -> Result<(), Fail> {
    let parts = parts(&rt, rt.alloc())?;
    let mut expected = [b'x'; 317];
    expected[..17].copy_from_slice(PAYMENT);
    let found = data_after::<Brand, _>(&rt, rt.alloc(), parts, 1)?;
    assert!(rt; found == Some(words_of(&expected)));
    Ok(())
}

#[test]
fn twelve_payments_of_bad_credit(rt: HostRuntime) -> Result<(), Fail> {
    let parts = parts(&rt, rt.alloc())?;
    let mut expected = [b'x'; 500];
    for turn in 0..12 {
        expected[17 * turn..17 * turn + 17].copy_from_slice(PAYMENT);
    }
    let found = data_after::<Brand, _>(&rt, rt.alloc(), parts, 12)?;
    assert!(rt; found == Some(words_of(&expected)));
    Ok(())
}
