//! A commit in the epoch that the clock has made.
ghost use Rattle.std.specs.Prelude.{◌≡◌};
ghost use Rattle.book.specs.Parts.{IsOpenedAs, IsLedgerOf};

use crate::engine::{Committed, parts, pay_next};
use crate::payments::payment_told;
use book::{Engine, Parts, Run, Seats};
use money::Refusal;
use std::alloc::Global;
use std::marker::Brand;
use std::sync::Wait;
use std::test::Fail;

/// Advances the epoch, and then commits a Payment.
fn advance_and_pay<K: Run, R: Wait>(
    rt: &R,
    alloc: Global,
    engine: &Engine<K>,
    seats: &mut Seats<K>,
) -> Result<(u64, Committed), Refusal>
    requires clock { seats.old.clock.board ≡ K.run.board }
{
    let epoch = engine.board().advance(&mut seats.clock)?;
    let committed = pay_next(rt, alloc, engine, &mut seats.terminals)?;
    Ok((epoch, committed))
}

fn pay_in_the_next_epoch<K: Run, R: Wait>(
    rt: &R,
    alloc: Global,
    parts: Parts,
) -> Result<(u64, Committed), Refusal>
    requires run { IsOpenedAs parts K.run }
    requires ledger { IsLedgerOf parts K.name K.parts }
{
    let (engine, mut seats) = Engine::<K>::open(parts);
    advance_and_pay(rt, alloc, &engine, &mut seats)
}

#[test]
fn a_commit_is_of_the_epoch_that_it_finds(rt: HostRuntime) -> Result<(), Fail> {
    let parts = parts(&rt, rt.alloc())?;
    let (epoch, committed) = pay_in_the_next_epoch::<Brand, _>(&rt, rt.alloc(), parts)?;
    assert_eq!(rt; epoch, 2);
    assert_eq!(rt; committed, (1, 8_589_934_592, payment_told(3, -1_100)));
    Ok(())
}
