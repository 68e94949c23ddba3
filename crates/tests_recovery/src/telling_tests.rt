//! What is told of two log files: five Payments of 1.00 in epochs 4 to 8, the first in the first file.

use log_disk::Memory;
use money::Refusal;
use program_recovery::{Manner, checked, recovered};
use std::alloc::Global;
use std::io::{self, ErrorKind, Write};
use std::sync::Wait;
use std::test::Fail;
use std::thread::Threads;
use std::time::Clock;
use tests_log_files::{disks, first_disk, one_disk, small};
use tests_log_vectors::{FIRST, PAYMENT};

/// In how many threads the files are read.
const THREADS: [usize; 3] = [1, 2, 8];

/// A recovery in so many threads, which is shown nowhere.
fn manner(alloc: Global, threads: usize) -> Manner<Vec<u8>> {
    Manner {
        threads,
        screen: None,
        sizes: Vec::new(alloc),
    }
}

/// What is shown of these disks, read in so many threads.
fn shown<R: Threads + Wait + Clock + Sync>(
    rt: &R,
    alloc: Global,
    disks: &mut [Memory],
    threads: usize,
) -> Result<Vec<u8>, Refusal> {
    let population = small(alloc)?;
    let mut text = Vec::new(alloc);
    let manner = manner(alloc, threads);
    recovered(rt, alloc, &population, disks, &mut text, manner)?;
    Ok(text)
}

/// What is reported of them.
fn reported<R: Threads + Wait + Clock + Sync>(
    rt: &R,
    alloc: Global,
    disks: &mut [Memory],
    threads: usize,
) -> Result<Vec<u8>, Refusal> {
    let population = small(alloc)?;
    let mut text = Vec::new(alloc);
    let manner = manner(alloc, threads);
    checked(rt, alloc, &population, disks, &mut text, manner)?;
    Ok(text)
}

#[test]
fn two_files_are_shown(rt: HostRuntime) -> Result<(), Fail> {
    let mut disks = disks(rt.alloc(), 1)?;
    let expected = "durable 5\ncommits 2\nwarehouse 1 ytd 202.00\ndistrict 1 1 ytd 102.00 next 11\n\
        district 1 2 ytd 100.00 next 11\n";
    for threads in THREADS {
        let text = shown(&rt, rt.alloc(), &mut disks, threads)?;
        assert_eq!(rt; text.as_slice(), expected.as_bytes());
    }
    Ok(())
}

#[test]
fn two_files_are_reported(rt: HostRuntime) -> Result<(), Fail> {
    let mut disks = disks(rt.alloc(), 1)?;
    let expected =
        "commits 2\nC1 ok\nC2 ok\nC3 ok\nC4 ok\nC5 ok\nC6 ok\nC7 ok\nC8 ok\nC9 ok\nC10 ok\nC12 ok\n";
    for threads in THREADS {
        let text = reported(&rt, rt.alloc(), &mut disks, threads)?;
        assert_eq!(rt; text.as_slice(), expected.as_bytes());
    }
    Ok(())
}

#[test]
fn a_missing_commit_is_a_gap(rt: HostRuntime) -> Result<(), Fail> {
    let mut disks = disks(rt.alloc(), 0)?;
    for threads in THREADS {
        let text = shown(&rt, rt.alloc(), &mut disks, threads);
        assert_eq!(rt; text.err(), Some(Refusal::Gap));
        let text = reported(&rt, rt.alloc(), &mut disks, threads);
        assert_eq!(rt; text.err(), Some(Refusal::Gap));
    }
    Ok(())
}

#[test]
fn one_file_of_two_is_damaged(rt: HostRuntime) -> Result<(), Fail> {
    let mut disks = first_disk(rt.alloc())?;
    for threads in THREADS {
        let text = shown(&rt, rt.alloc(), &mut disks, threads);
        assert_eq!(rt; text.err(), Some(Refusal::Damaged));
        let text = reported(&rt, rt.alloc(), &mut disks, threads);
        assert_eq!(rt; text.err(), Some(Refusal::Damaged));
    }
    Ok(())
}

/// A disk with the file of one Payment of 12.34, in which W_YTD is 0.01 more than it left.
fn one_cent_more(alloc: Global) -> Result<Vec<Memory>, Refusal> {
    let mut payment = PAYMENT;
    payment[42] = 0xf3;
    let mut bytes = Vec::new(alloc);
    bytes.extend_from_slice(&FIRST)?;
    bytes.push(1)?;
    bytes.extend_from_slice(&payment)?;
    bytes.push(0)?;
    one_disk(alloc, &bytes)
}

#[test]
fn a_log_that_no_history_made_is_reported(rt: HostRuntime) -> Result<(), Fail> {
    let mut disks = one_cent_more(rt.alloc())?;
    let expected = "commits 1\nC1 broken 1\nC2 ok\nC3 ok\nC4 ok\nC5 ok\nC6 ok\nC7 ok\nC8 broken 1\n\
        C9 ok\nC10 ok\nC12 ok\n";
    for threads in THREADS {
        let text = reported(&rt, rt.alloc(), &mut disks, threads)?;
        assert_eq!(rt; text.as_slice(), expected.as_bytes());
    }
    Ok(())
}

/// A writer that takes so many bytes, and then fails.
#[derive(Drop)]
struct Full {
    room: usize,
}

impl Write for Full {
    fn write(&mut self, buf: &[u8]) -> io::Result<usize> {
        if self.room == 0 {
            return Err(io::Error::from(ErrorKind::Other));
        }
        let taken = buf.len().min(self.room);
        self.room -= taken;
        Ok(taken)
    }

    fn flush(&mut self) -> io::Result<()> {
        Ok(())
    }
}

#[test]
fn a_writer_that_fails_is_a_device(rt: HostRuntime) -> Result<(), Fail> {
    let population = small(rt.alloc())?;
    let mut disks = disks(rt.alloc(), 1)?;
    let full = &mut Full { room: 7 };
    let how = manner(rt.alloc(), 2);
    let outcome = recovered(&rt, rt.alloc(), &population, &mut disks, full, how);
    assert_eq!(rt; outcome.err(), Some(Refusal::Device));
    let full = &mut Full { room: 7 };
    let how = manner(rt.alloc(), 2);
    let outcome = checked(&rt, rt.alloc(), &population, &mut disks, full, how);
    assert_eq!(rt; outcome.err(), Some(Refusal::Device));
    Ok(())
}
