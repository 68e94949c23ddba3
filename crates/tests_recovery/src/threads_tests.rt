//! Recovery in threads: five Payments of 1.00 in epochs 4 to 8, in two files.

use crate::meeting::{Meeting, Met};
use log_disk::{Disk, Memory};
use money::Refusal;
use recover::recover_with;
use recover_progress::Progress;
use std::alloc::{AllocError, Global};
use std::test::Fail;
use std::thread::Threads;
use tests_disks::FailingDisk;
use tests_log_files::{
    ENTRY, Recovery, disk_of, disks, first, first_disk, push_body, push_entry, push_header, second,
    small, unwatched,
};

/// What these disks recover to in so many threads.
fn recovery_of<R: Threads + Sync, D: Disk + Send>(
    rt: &R,
    alloc: Global,
    disks: &mut [D],
    threads: usize,
) -> Result<Recovery, Refusal> {
    noted(rt, alloc, disks, threads, &unwatched(alloc))
}

/// The same, with the progress of it noted.
fn noted<R: Threads + Sync, D: Disk + Send>(
    rt: &R,
    alloc: Global,
    disks: &mut [D],
    threads: usize,
    progress: &Progress,
) -> Result<Recovery, Refusal> {
    let population = small(alloc)?;
    let found = recover_with(rt, alloc, &population, disks, threads, progress)?;
    Ok(Recovery {
        durable: found.durable,
        commits: found.commits,
    })
}

#[test]
fn any_number_of_threads_recovers_the_same(rt: HostRuntime) -> Result<(), Fail> {
    let expected = Recovery {
        durable: 5,
        commits: 2,
    };
    for threads in 0..=8 {
        let mut disks = disks(rt.alloc(), 1)?;
        assert_eq!(rt;
            recovery_of(&rt, rt.alloc(), &mut disks, threads),
            Ok(expected)
        );
    }
    Ok(())
}

/// One of eight files: a body of mark 9 with one of eight Payments.
fn eighth(alloc: Global, logger: u32) -> Result<Vec<u8>, AllocError> {
    let number = logger.saturating_add(1);
    let mut bytes = Vec::new(alloc);
    push_header(&mut bytes, u64::from(logger), 8)?;
    push_body(&mut bytes, 9, ENTRY)?;
    push_entry(&mut bytes, number, number, u64::from(logger))?;
    bytes.push(0)?;
    Ok(bytes)
}

fn eight_disks(alloc: Global) -> Result<Vec<Memory>, Refusal> {
    let mut disks = Vec::new(alloc);
    for logger in 0..8u32 {
        let bytes = eighth(alloc, logger)?;
        disks.push(disk_of(alloc, &bytes)?)?;
    }
    Ok(disks)
}

#[test]
fn any_number_of_threads_recovers_eight_files(rt: HostRuntime) -> Result<(), Fail> {
    let expected = Recovery {
        durable: 9,
        commits: 8,
    };
    for threads in 0..=9 {
        let mut disks = eight_disks(rt.alloc())?;
        assert_eq!(rt;
            recovery_of(&rt, rt.alloc(), &mut disks, threads),
            Ok(expected)
        );
    }
    Ok(())
}

/// A disk with these bytes but for so many at their end.
fn disk_without(alloc: Global, mut bytes: Vec<u8>, last: usize) -> Result<Memory, Refusal> {
    bytes.truncate(bytes.len().saturating_sub(last));
    disk_of(alloc, &bytes)
}

/// The disks of both files, each without so many bytes at its end: without its gate it is damaged.
fn cut_disks(alloc: Global, last: (usize, usize)) -> Result<Vec<Memory>, Refusal> {
    let mut disks = Vec::new(alloc);
    disks.push(disk_without(alloc, first(alloc, 1)?, last.0)?)?;
    disks.push(disk_without(alloc, second(alloc)?, last.1)?)?;
    Ok(disks)
}

#[test]
fn damaged_files_are_found_in_threads(rt: HostRuntime) -> Result<(), Fail> {
    for last in [(1, 1), (1, 0), (0, 1)] {
        for threads in 1..=8 {
            let mut disks = cut_disks(rt.alloc(), last)?;
            assert_eq!(rt;
                recovery_of(&rt, rt.alloc(), &mut disks, threads),
                Err(Refusal::Damaged)
            );
        }
    }
    Ok(())
}

/// These disks, lent, of which this one can't be read.
fn unread(
    alloc: Global,
    disks: &mut [Memory],
    logger: usize,
) -> Result<Vec<FailingDisk<'_>>, AllocError> {
    let mut all = Vec::new(alloc);
    for (n, disk) in disks.iter_mut().enumerate() {
        let disk = if n == logger {
            FailingDisk::strict(disk, None)
        } else {
            FailingDisk::new(disk, None)
        };
        all.push(disk)?;
    }
    Ok(all)
}

/// What two disks recover to of which this one can't be read, each without so many bytes at its end.
fn unread_outcome<R: Threads + Sync>(
    rt: &R,
    alloc: Global,
    logger: usize,
    last: (usize, usize),
    threads: usize,
) -> Result<Recovery, Refusal> {
    let mut disks = cut_disks(alloc, last)?;
    let mut unread = unread(alloc, &mut disks, logger)?;
    recovery_of(rt, alloc, &mut unread, threads)
}

#[test]
fn a_disk_that_is_not_read_is_found_in_threads(rt: HostRuntime) -> Result<(), Fail> {
    for threads in 1..=8 {
        for logger in 0..2 {
            let outcome = unread_outcome(&rt, rt.alloc(), logger, (0, 0), threads);
            assert_eq!(rt; outcome, Err(Refusal::Device));
        }
    }
    Ok(())
}

/// Whatever another thread finds.
#[test]
fn a_disk_that_is_not_read_decides(rt: HostRuntime) -> Result<(), Fail> {
    for threads in 2..=8 {
        for (logger, last) in [(0, (0, 1)), (1, (1, 0))] {
            let outcome = unread_outcome(&rt, rt.alloc(), logger, last, threads);
            assert_eq!(rt; outcome, Err(Refusal::Device));
        }
    }
    Ok(())
}

/// The progress of a recovery that begins on these disks, none of which fails.
fn beginning(alloc: Global, disks: &mut [Memory]) -> Result<Progress, Refusal> {
    let mut sizes = Vec::new(alloc);
    for disk in disks {
        sizes.push(disk.len()?)?;
    }
    Ok(Progress::of(sizes))
}

#[test]
fn bytes_and_entries_are_noted_once(rt: HostRuntime) -> Result<(), Fail> {
    for threads in [1, 2] {
        let mut disks = disks(rt.alloc(), 1)?;
        let progress = beginning(rt.alloc(), &mut disks)?;
        let all = progress.in_all();
        assert_eq!(rt;
            (progress.read(), progress.entries(), progress.to_read()),
            (0, 0, all)
        );
        noted(&rt, rt.alloc(), &mut disks, threads, &progress)?;
        assert_eq!(rt;
            (progress.read(), progress.entries(), progress.to_read()),
            (all, 5, all)
        );
    }
    Ok(())
}

#[test]
fn bytes_of_which_nothing_is_known_are_noted(rt: HostRuntime) -> Result<(), Fail> {
    let mut disks = disks(rt.alloc(), 1)?;
    let all = beginning(rt.alloc(), &mut disks)?.in_all();
    let progress = unwatched(rt.alloc());
    noted(&rt, rt.alloc(), &mut disks, 1, &progress)?;
    assert_eq!(rt;
        (progress.read(), progress.in_all(), progress.to_read()),
        (all, 0, all)
    );
    Ok(())
}

#[test]
fn a_file_that_is_damaged_is_noted_as_far_as_it_is_read(rt: HostRuntime) -> Result<(), Fail> {
    let mut disks = first_disk(rt.alloc())?;
    let progress = beginning(rt.alloc(), &mut disks)?;
    let outcome = noted(&rt, rt.alloc(), &mut disks, 1, &progress);
    assert_eq!(rt; outcome, Err(Refusal::Damaged));
    assert_eq!(rt;
        (progress.read(), progress.entries()),
        (progress.in_all(), 0)
    );
    Ok(())
}

#[test]
fn a_gap_is_found_in_threads(rt: HostRuntime) -> Result<(), Fail> {
    let mut disks = disks(rt.alloc(), 0)?;
    assert_eq!(rt;
        recovery_of(&rt, rt.alloc(), &mut disks, 2),
        Err(Refusal::Gap)
    );
    Ok(())
}

/// The disks of both files, which meet.
fn met<'a>(alloc: Global, meeting: &'a Meeting) -> Result<Vec<Met<'a, Memory>>, Refusal> {
    let mut met = Vec::new(alloc);
    for disk in disks(alloc, 1)? {
        let is_first = met.is_empty();
        met.push(Met {
            disk,
            is_first,
            meeting,
        })?;
    }
    Ok(met)
}

#[test]
fn two_threads_read_two_files_at_once(rt: HostRuntime) -> Result<(), Fail> {
    let meeting = Meeting::default();
    let mut disks = met(rt.alloc(), &meeting)?;
    let expected = Recovery {
        durable: 5,
        commits: 2,
    };
    assert_eq!(rt; recovery_of(&rt, rt.alloc(), &mut disks, 2), Ok(expected));
    assert_eq!(rt; meeting.in_vain(), 0);
    Ok(())
}
