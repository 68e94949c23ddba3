//! Restarts on log files whose last process was stopped.

use crate::restarting::{BEHIND_8, Restart, numbers_of, restart_on};
use log_disk::Memory;
use money::{Cents, Refusal};
use std::alloc::{AllocError, Global};
use std::sync::Wait;
use std::test::Fail;
use tests_disks::{FailingDisk, Unsynced};
use tests_log_files::{Recovery, declare, disks, outcome_of};

/// What is recovered behind such a restart.
const RECOVERED: Recovery = Recovery {
    durable: 8,
    commits: 2,
};

#[test]
fn a_restart_declares_void_what_was_lost(rt: HostRuntime) -> Result<(), Fail> {
    let mut disks = disks(rt.alloc(), 1)?;
    assert_eq!(rt; restart_on(&rt, rt.alloc(), &mut disks), Ok(BEHIND_8));
    let recovered = outcome_of(rt.alloc(), &mut disks);
    assert_eq!(rt; recovered, Ok((RECOVERED, Some(Cents::new(20_200)))));
    Ok(())
}

#[test]
fn a_restart_behind_a_restart_writes_nothing(rt: HostRuntime) -> Result<(), Fail> {
    let mut disks = disks(rt.alloc(), 1)?;
    for _ in 0..2 {
        assert_eq!(rt; restart_on(&rt, rt.alloc(), &mut disks), Ok(BEHIND_8));
    }
    Ok(())
}

#[test]
fn a_restart_goes_on_where_one_was_stopped_between_files(rt: HostRuntime) -> Result<(), Fail> {
    let mut disks = disks(rt.alloc(), 1)?;
    assert_eq!(rt; declare(&mut disks, 0), Ok(255));
    let expected = Restart {
        lengths: (288, 723),
        ..BEHIND_8
    };
    assert_eq!(rt; restart_on(&rt, rt.alloc(), &mut disks), Ok(expected));
    let recovered = outcome_of(rt.alloc(), &mut disks);
    assert_eq!(rt; recovered, Ok((RECOVERED, Some(Cents::new(20_200)))));
    Ok(())
}

/// These disks, lent, of which none may be looked at until all are synced.
fn gathered<'a>(
    alloc: Global,
    disks: &'a mut [Memory],
    unsynced: &'a Unsynced,
) -> Result<Vec<FailingDisk<'a>>, AllocError> {
    let mut all = Vec::new(alloc);
    for disk in disks.iter_mut() {
        all.push(FailingDisk::gathered(disk, unsynced))?;
    }
    Ok(all)
}

/// What a restart gives on these disks, of which none may be looked at until all are synced: its number of commits and
/// its epoch.
fn restarted_once_synced<R: Wait>(
    rt: &R,
    alloc: Global,
    disks: &mut [Memory],
) -> Result<(u64, u64), Refusal> {
    let unsynced = Unsynced::of(disks.len());
    let gathered = gathered(alloc, disks, &unsynced)?;
    numbers_of(rt, alloc, gathered)
}

#[test]
fn no_disk_is_looked_at_before_all_are_synced(rt: HostRuntime) -> Result<(), Fail> {
    let mut disks = disks(rt.alloc(), 1)?;
    let numbers = restarted_once_synced(&rt, rt.alloc(), &mut disks);
    assert_eq!(rt; numbers, Ok((BEHIND_8.commits, BEHIND_8.epoch)));
    Ok(())
}
