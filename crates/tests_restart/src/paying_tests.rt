//! A Payment behind a restart.
ghost use Rattle.std.specs.Prelude.{◌≡◌, ◌<◌, length, IfOk};
ghost use Rattle.book.specs.Parts.{IsFresh, IsOpenedAs, IsLedgerOf, loggers_of};

use crate::restarting::lent;
use book::{Parts, Run};
use log_disk::{Disk, Memory};
use logfile::LogFile;
use money::{Cents, Refusal};
use recover_restart::{Restarted, restart};
use std::alloc::Global;
use std::marker::Brand;
use std::sync::Wait;
use std::test::Fail;
use tests_log_files::{Recovery, disks, outcome_of, small, unwatched};
use tests_one_logger::{Stage, append_to};

/// A commit's number, and its TID's word.
type Paid = (u32, u64);

/// Customer 6 pays 1.00 in district 1.
fn pay<K: Run, D: Disk + Drop, R: Wait>(
    rt: &R,
    alloc: Global,
    stage: &mut Stage<K, D>,
) -> Result<Paid, Refusal> {
    let done = stage.pay(rt, alloc, 6, 100)?;
    Ok((done.number(), done.tid().word()))
}

/// Both loggers append what they take in the next epoch.
fn append_both<K: Run, D: Disk + Drop, R: Wait>(
    rt: &R,
    stage: &mut Stage<K, D>,
    second: &mut LogFile<D>,
) -> Result<(), Refusal>
    requires { 1 < K.run.board.plan.loggers }
{
    stage.advance()?;
    let batch = stage.take(rt);
    stage.append(&batch)?;
    append_to(second, &stage.take_of(rt, 1))
}

/// Pays on what goes on with these parts and files.
fn paid_with<K: Run, D: Disk + Drop, R: Wait>(
    rt: &R,
    alloc: Global,
    parts: Parts,
    first: LogFile<D>,
    second: &mut LogFile<D>,
) -> Result<Paid, Refusal>
    requires run { IsOpenedAs parts K.run }
    requires ledger { IsLedgerOf parts K.name K.parts }
    requires loggers { loggers_of parts ≡ 2 }
{
    let mut stage = Stage::<K, D>::over(parts, first)?;
    let paid = pay(rt, alloc, &mut stage)?;
    append_both(rt, &mut stage, second)?;
    Ok(paid)
}

/// Restarts on two disks, with one terminal.
fn restarted<D: Disk + Drop, R: Wait>(
    rt: &R,
    alloc: Global,
    disks: Vec<D>,
) -> Result<Restarted<D>, Refusal>
    requires { length disks.items ≡ 2 }
    ensures fresh { D.is_modelled → IfOk result (λ r. IsFresh r.parts) }
    ensures loggers { D.is_modelled → IfOk result (λ r. loggers_of r.parts ≡ 2) }
{
    let population = small(alloc)?;
    restart(rt, alloc, population, disks, 1, &unwatched(alloc))
}

/// Pays behind a restart.
fn paid_behind<D: Disk + Drop, R: Wait>(
    rt: &R,
    alloc: Global,
    restarted: Restarted<D>,
) -> Result<Paid, Refusal>
    requires fresh { IsFresh restarted.parts }
    requires loggers { loggers_of restarted.parts ≡ 2 }
{
    let Restarted {
        parts,
        mut files,
        ..
    } = restarted;
    let (Some(mut second), Some(first)) = (files.pop(), files.pop()) else {
        return Err(Refusal::BadInput);
    };
    paid_with::<Brand, D, R>(rt, alloc, parts, first, &mut second)
}

/// Pays behind a restart on two disks.
fn paid_on<R: Wait>(rt: &R, alloc: Global, disks: &mut [Memory]) -> Result<Paid, Refusal> {
    let lent = lent(alloc, disks)?;
    if lent.len() != 2 {
        return Err(Refusal::BadInput);
    }
    let restarted = restarted(rt, alloc, lent)?;
    paid_behind(rt, alloc, restarted)
}

#[test]
fn a_payment_behind_a_restart_is_recovered(rt: HostRuntime) -> Result<(), Fail> {
    let mut disks = disks(rt.alloc(), 1)?;
    let paid = paid_on(&rt, rt.alloc(), &mut disks);
    assert_eq!(rt; paid, Ok((3, 38_654_705_664)));
    let expected = Recovery {
        durable: 9,
        commits: 3,
    };
    let recovered = outcome_of(rt.alloc(), &mut disks);
    assert_eq!(rt; recovered, Ok((expected, Some(Cents::new(20_300)))));
    Ok(())
}
