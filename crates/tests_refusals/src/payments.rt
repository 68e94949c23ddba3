//! A terminal whose customers pay, and the file of its logger.
ghost use Rattle.std.specs.Prelude.{◌≡◌};
ghost use Rattle.book.specs.Parts.{IsOpenedAs, IsLedgerOf, loggers_of};

use crate::again::Again;
use crate::roomy::Roomy;
use crate::till::Till;
use book::{Parts, Run};
use log_disk::Disk;
use money::Refusal;
use std::alloc::Global;
use std::marker::Brand;
use std::sync::Wait;
use std::sync::atomic::AtomicU64;
use tables::Scale;
use tests_one_logger::parts;

/// The customers who pay before each append: from one to before another.
const BATCHES: [(u32, u32); 3] = [(1, 5), (5, 8), (8, 11)];

/// Customers pay, and what they committed is appended. Each commit's number is its customer's.
fn pay_and_append<K: Run, D: Disk + Drop, R: Wait>(
    rt: &R,
    alloc: Global,
    again: &mut Again,
    till: &mut Till<'_, K, D>,
    customers: (u32, u32),
) -> Result<(), Refusal> {
    for customer in customers.0..customers.1 {
        if till.pay(rt, alloc, again, customer)? != customer {
            return Err(Refusal::Gap);
        }
    }
    till.append(rt, again)
}

fn pay_batches<K: Run, D: Disk + Drop, R: Wait>(
    rt: &R,
    alloc: Global,
    again: &mut Again,
    till: &mut Till<'_, K, D>,
) -> Result<(), Refusal> {
    for customers in BATCHES {
        pay_and_append(rt, alloc, again, till, customers)?;
    }
    Ok(())
}

/// Ten Payments go to an empty disk, which counts its calls, in three bodies.
pub(crate) fn pay_all<R: Wait>(
    rt: &R,
    alloc: Global,
    again: &mut Again,
    disk: &mut Roomy<'_>,
    calls: &AtomicU64,
) -> Result<(), Refusal> {
    let parts = parts(rt, alloc, Scale::new(1, 2, 10, 20, 30, 1_000)?)?;
    pay_on::<Brand, R>(rt, alloc, again, parts, disk, calls)
}

fn pay_on<K: Run, R: Wait>(
    rt: &R,
    alloc: Global,
    again: &mut Again,
    parts: Parts,
    disk: &mut Roomy<'_>,
    calls: &AtomicU64,
) -> Result<(), Refusal>
    requires run { IsOpenedAs parts K.run }
    requires ledger { IsLedgerOf parts K.name K.parts }
    requires loggers { loggers_of parts ≡ 1 }
{
    let mut till = Till::<K, &mut Roomy<'_>>::open(alloc, parts, disk, calls)?;
    pay_batches(rt, alloc, again, &mut till)
}
