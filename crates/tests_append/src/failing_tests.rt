//! Appends to a device that fails.
ghost use Rattle.std.specs.Prelude.{◌≡◌, ◌+◌, ◌<◌};
ghost use Rattle.book.specs.Parts.{IsOpenedAs, IsLedgerOf, loggers_of};

use book::{Parts, Run};
use log_disk::{Disk, Memory};
use log_scan::scan;
use money::Refusal;
use std::alloc::Global;
use std::marker::Brand;
use std::sync::Wait;
use std::test::Fail;
use tests_disks::{FailingDisk, Fault};
use tests_one_logger::{Stage, Standing, append_payments, small, where_stands};

/// What the second of two batches comes to, when it is appended and when that is tried again, and where the file stands
/// then.
#[derive(Clone, Copy, Debug, PartialEq, Eq)]
struct Outcome {
    first: Result<(), Refusal>,
    again: Result<(), Refusal>,
    standing: Standing,
}

/// Appends a second batch, with one Payment, and once more.
fn append_twice<K: Run, D: Disk + Drop, R: Wait>(
    rt: &R,
    alloc: Global,
    stage: &mut Stage<K, D>,
) -> Result<Outcome, Refusal> {
    stage.pay(rt, alloc, 4, 200)?;
    stage.advance()?;
    let batch = stage.take(rt);
    Ok(Outcome {
        first: stage.append(&batch),
        again: stage.append(&batch),
        standing: where_stands(stage),
    })
}

fn outcome_of<K: Run, R: Wait>(
    rt: &R,
    alloc: Global,
    parts: Parts,
    disk: FailingDisk<'_>,
) -> Result<Outcome, Refusal>
    requires run { IsOpenedAs parts K.run }
    requires ledger { IsLedgerOf parts K.name K.parts }
    requires loggers { loggers_of parts ≡ 1 }
{
    let mut stage = Stage::<K, FailingDisk<'_>>::open(alloc, parts, disk)?;
    append_payments(rt, alloc, &mut stage, &[(3, 100)])?;
    append_twice(rt, alloc, &mut stage)
}

/// What the second batch comes to where this one of its four calls fails, and how many bodies are read back then.
fn failed_at<R: Wait>(rt: &R, alloc: Global, call: u64) -> Result<(Outcome, usize, usize), Refusal>
    requires { call < 4 }
{
    let mut memory = Memory::new(alloc);
    let parts = small(rt, alloc)?;
    // Making the file takes two calls, and the first batch four.
    let fault = Fault {
        behind: 6 + call,
        bytes: 0,
    };
    let disk = FailingDisk::new(&mut memory, Some(fault));
    let outcome = outcome_of::<Brand, R>(rt, alloc, parts, disk)?;
    let (_, bodies) = scan(alloc, &mut memory)?;
    Ok((outcome, bodies.len(), memory.calls().len()))
}

#[test]
fn a_device_that_fails_ends_a_file(rt: HostRuntime) -> Result<(), Fail> {
    let expected = Outcome {
        first: Err(Refusal::Device),
        again: Err(Refusal::Device),
        standing: Standing {
            count: 1,
            last: 1,
            mark: 1,
            kept: 1,
        },
    };
    for (call, bodies) in [(0, 1), (1, 1), (2, 1), (3, 2)] {
        let left = failed_at(&rt, rt.alloc(), call)?;
        assert_eq!(rt; left, (expected, bodies, 6 + call as usize));
    }
    Ok(())
}
