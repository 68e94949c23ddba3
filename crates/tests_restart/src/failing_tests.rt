//! Restarts whose device fails.

use crate::restarting::{BEHIND_8, Restart, numbers_behind_a_refusal, numbers_of, restart_on};
use log_disk::Memory;
use log_text::{Body, read_file};
use money::Refusal;
use std::alloc::{AllocError, Global};
use std::sync::Wait;
use std::test::Fail;
use tests_disks::{ALL_TORN, FailingDisk, Fault, Torn, left_by};
use tests_log_files::{disk_of, disks};

/// The last sync of a void body: behind two syncs before anything is read, the text, its sync and the gate.
const LAST_SYNC: Fault = Fault {
    behind: 5,
    bytes: 0,
};

/// The disks, lent, of which that of this logger fails at the last sync of its void body.
fn failing(
    alloc: Global,
    disks: &mut [Memory],
    logger: usize,
) -> Result<Vec<FailingDisk<'_>>, AllocError> {
    let mut all = Vec::new(alloc);
    for (n, disk) in disks.iter_mut().enumerate() {
        let fault = (n == logger).then_some(LAST_SYNC);
        all.push(FailingDisk::new(disk, fault))?;
    }
    Ok(all)
}

/// What a restart is refused by where that disk fails.
fn refusal_of<R: Wait>(
    rt: &R,
    alloc: Global,
    disks: &mut [Memory],
    logger: usize,
) -> Result<Option<Refusal>, AllocError> {
    let failing = failing(alloc, disks, logger)?;
    Ok(numbers_of(rt, alloc, failing).err())
}

/// What a restart gives on the disks that come back where that disk fails.
fn numbers_behind<R: Wait>(
    rt: &R,
    alloc: Global,
    disks: &mut [Memory],
    logger: usize,
) -> Result<(u64, u64), Refusal> {
    let failing = failing(alloc, disks, logger)?;
    numbers_behind_a_refusal(rt, alloc, failing)
}

/// Whether the last body of these bytes is void up to epoch 8.
fn is_declared(alloc: Global, bytes: &[u8]) -> Result<bool, Refusal> {
    let (_, bodies) = read_file(alloc, bytes)?;
    Ok(matches!(bodies.last(), Some(Body::Void(_, 8))))
}

/// Whether it is so of all that a stop may leave on these disks.
fn are_declared(alloc: Global, disks: &[Memory], torn: Torn) -> Result<bool, Refusal> {
    for disk in disks {
        let bytes = left_by(alloc, disk.calls(), torn)?;
        if !is_declared(alloc, &bytes)? {
            return Ok(false);
        }
    }
    Ok(true)
}

#[test]
fn a_restart_that_failed_may_be_called_again(rt: HostRuntime) -> Result<(), Fail> {
    for (logger, lengths) in [(0, (288, 723)), (1, (255, 723))] {
        let mut disks = disks(rt.alloc(), 1)?;
        let refusal = refusal_of(&rt, rt.alloc(), &mut disks, logger);
        assert_eq!(rt; refusal, Ok(Some(Refusal::Device)));
        let expected = Restart {
            lengths,
            ..BEHIND_8
        };
        assert_eq!(rt; restart_on(&rt, rt.alloc(), &mut disks), Ok(expected));
        for torn in ALL_TORN {
            assert_eq!(rt; are_declared(rt.alloc(), &disks, torn), Ok(true));
        }
    }
    Ok(())
}

#[test]
fn a_restart_that_failed_gives_its_disks_back(rt: HostRuntime) -> Result<(), Fail> {
    for logger in [0, 1] {
        let mut disks = disks(rt.alloc(), 1)?;
        let numbers = numbers_behind(&rt, rt.alloc(), &mut disks, logger);
        assert_eq!(rt; numbers, Ok((2, 9)));
    }
    Ok(())
}

/// Disks with what a stop leaves on these.
fn stopped(alloc: Global, disks: &[Memory], torn: Torn) -> Result<Vec<Memory>, Refusal> {
    let mut left = Vec::new(alloc);
    for disk in disks {
        let bytes = left_by(alloc, disk.calls(), torn)?;
        left.push(disk_of(alloc, &bytes)?)?;
    }
    Ok(left)
}

#[test]
fn a_restart_goes_on_behind_a_stop_in_another(rt: HostRuntime) -> Result<(), Fail> {
    for torn in ALL_TORN {
        let mut disks = disks(rt.alloc(), 1)?;
        let refusal = refusal_of(&rt, rt.alloc(), &mut disks, 0);
        assert_eq!(rt; refusal, Ok(Some(Refusal::Device)));
        let mut left = stopped(rt.alloc(), &disks, torn)?;
        let is_open = matches!(torn, Torn::New | Torn::SecondHalf | Torn::Filled(1));
        let expected = Restart {
            lengths: (if is_open { 288 } else { 255 }, 723),
            ..BEHIND_8
        };
        assert_eq!(rt; restart_on(&rt, rt.alloc(), &mut left), Ok(expected));
    }
    Ok(())
}
