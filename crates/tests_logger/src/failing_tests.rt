//! A logger whose disk fails at one of its calls: what is acknowledged is recovered.
ghost use Rattle.std.specs.Prelude.{◌≡◌, IfOk};
ghost use Rattle.book.specs.Parts.{IsOpenedAs, IsLedgerOf, base_of, loggers_of};

use crate::stage::{Stage, parts};
use crate::turn_tests::open_one;
use book::{Parts, Run};
use log_disk::{Disk, Memory};
use logger::Logger;
use money::Refusal;
use std::alloc::Global;
use std::marker::Brand;
use std::sync::Wait;
use std::test::Fail;
use tests_disks::{FailingDisk, Fault};
use tests_log_files::{Recovery, recovery_of};

/// What a turn answers, and again with the same batch where it was refused; D; and how many replies are released then.
#[derive(Clone, Copy, Debug, PartialEq, Eq)]
struct Outcome {
    turn: Result<u64, Refusal>,
    again: Result<u64, Refusal>,
    durable: u64,
    acknowledged: u64,
}

/// Where the disk fails.
const FAILED: Outcome = Outcome {
    turn: Err(Refusal::Device),
    again: Err(Refusal::Device),
    durable: 0,
    acknowledged: 0,
};

/// Where it doesn't, with this mark.
fn kept_at(epoch: u64) -> Outcome {
    Outcome {
        turn: Ok(epoch),
        again: Ok(epoch),
        durable: epoch,
        acknowledged: 1,
    }
}

/// A customer pays, the epoch goes on, and the logger has its turn.
fn round<K: Run, R: Wait, D: Disk>(
    rt: &R,
    alloc: Global,
    stage: &mut Stage<K>,
    logger: &mut Logger<D>,
    customer: u32,
) -> Result<Outcome, Refusal>
    requires { logger.old.seat.board ≡ K.run.board }
    ensures { logger.new.seat.board ≡ K.run.board }
{
    stage.pay(rt, alloc, customer, 100)?;
    stage.advance()?;
    let batch = stage.take(rt, logger);
    let turn = stage.turn(logger, &batch);
    let again = match turn {
        Ok(_) => turn,
        Err(_) => stage.turn(logger, &batch),
    };
    Ok(Outcome {
        turn,
        again,
        durable: stage.durable(),
        acknowledged: stage.desk.acknowledge(&stage.engine),
    })
}

/// A round, and another one where the first was not refused.
fn rounds<K: Run, R: Wait, D: Disk + Drop>(
    rt: &R,
    alloc: Global,
    parts: Parts,
    disk: D,
) -> Result<(Outcome, Option<Outcome>), Refusal>
    requires run { IsOpenedAs parts K.run }
    requires ledger { IsLedgerOf parts K.name K.parts }
    requires loggers { (loggers_of parts ≡ 1) × (base_of parts ≡ 0) }
    requires unmodelled { D.is_modelled → ⊥ }
{
    let (mut stage, mut logger) = open_one::<K, D>(alloc, parts, disk)?;
    let first = round(rt, alloc, &mut stage, &mut logger, 3)?;
    if first.turn.is_err() {
        return Ok((first, None));
    }
    let second = round(rt, alloc, &mut stage, &mut logger, 4)?;
    Ok((first, Some(second)))
}

/// What both rounds come to where this call of the disk fails, and what is recovered then.
fn failed_at<R: Wait>(
    rt: &R,
    alloc: Global,
    fault: Fault,
) -> Result<(Outcome, Option<Outcome>, Recovery), Refusal> {
    let parts = parts(rt, alloc, 1)?;
    let mut disks = [Memory::new(alloc)];
    let disk = FailingDisk::new(&mut disks[0], Some(fault));
    let (first, second) = rounds::<Brand, R, _>(rt, alloc, parts, disk)?;
    let recovered = recovery_of(alloc, &mut disks)?;
    Ok((first, second, recovered))
}

/// What is recovered of so many bodies of one Payment each, from epoch 1 on.
fn of_bodies(bodies: u64) -> Recovery {
    Recovery {
        durable: bodies,
        commits: bodies,
    }
}

/// How many bytes of a write are done all the same: none, half of a body's, and all.
const DONE: [usize; 3] = [0, 86, 173];

#[test]
fn a_disk_that_fails_as_the_file_is_made(rt: HostRuntime) -> Result<(), Fail> {
    for (behind, bytes) in [(0, 0), (0, 24), (0, 49), (1, 0)] {
        let outcome = failed_at(&rt, rt.alloc(), Fault { behind, bytes });
        assert_eq!(rt; outcome, Err(Refusal::Device));
    }
    Ok(())
}

#[test]
fn a_disk_that_fails_in_the_first_turn(rt: HostRuntime) -> Result<(), Fail> {
    // The body, a sync, its gate, a sync.
    for (behind, bodies) in [
        (2, [0, 0, 0]),
        (3, [0, 0, 0]),
        (4, [0, 1, 1]),
        (5, [1, 1, 1]),
    ] {
        for (bytes, bodies) in DONE.into_iter().zip(bodies) {
            let outcome = failed_at(&rt, rt.alloc(), Fault { behind, bytes })?;
            assert_eq!(rt; outcome, (FAILED, None, of_bodies(bodies)));
        }
    }
    Ok(())
}

#[test]
fn a_disk_that_fails_in_the_second_turn(rt: HostRuntime) -> Result<(), Fail> {
    let fails = Outcome {
        durable: 1,
        ..FAILED
    };
    for (behind, bodies) in [
        (6, [1, 1, 1]),
        (7, [1, 1, 1]),
        (8, [1, 2, 2]),
        (9, [2, 2, 2]),
    ] {
        for (bytes, bodies) in DONE.into_iter().zip(bodies) {
            let outcome = failed_at(&rt, rt.alloc(), Fault { behind, bytes })?;
            assert_eq!(rt; outcome, (kept_at(1), Some(fails), of_bodies(bodies)));
        }
    }
    Ok(())
}

#[test]
fn a_disk_that_fails_in_no_turn(rt: HostRuntime) -> Result<(), Fail> {
    let fault = Fault {
        behind: 10,
        bytes: 0,
    };
    let outcome = failed_at(&rt, rt.alloc(), fault)?;
    assert_eq!(rt; outcome, (kept_at(1), Some(kept_at(2)), of_bodies(2)));
    Ok(())
}
