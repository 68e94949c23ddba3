//! A process that is stopped in its second append, within each write and between the calls of its device.

use log_disk::{Disk, Memory, MemoryCall};
use money::Refusal;
use std::alloc::{AllocError, Global};
use std::sync::Wait;
use std::test::Fail;
use tests_disks::{ALL_TORN, Torn, left_by};
use tests_log_files::{Recovery, one_disk, recovery_of};
use tests_one_logger::filled;

/// A disk on which a file was made by two calls, and to which a Payment was appended by four, in epoch 1, and then
/// another, in epoch 2.
fn appended<R: Wait>(rt: &R, alloc: Global) -> Result<Memory, Refusal> {
    let mut memory = Memory::new(alloc);
    filled(rt, alloc, &mut memory, &[&[(3, 100)], &[(4, 100)]])?;
    Ok(memory)
}

/// What is recovered of these bytes.
fn recovered(alloc: Global, bytes: &[u8]) -> Result<Recovery, Refusal> {
    let mut disks = one_disk(alloc, bytes)?;
    recovery_of(alloc, &mut disks)
}

/// What is recovered of so many bodies of one Payment each.
fn of_bodies(bodies: u64) -> Result<Recovery, Refusal> {
    Ok(Recovery {
        durable: bodies,
        commits: bodies,
    })
}

/// What is recovered where the process is stopped behind so many calls, or within the last of them.
fn recovered_behind(
    alloc: Global,
    calls: &[MemoryCall],
    count: usize,
    torn: Torn,
) -> Result<Recovery, Refusal> {
    let calls = &calls[..count.min(calls.len())];
    let bytes = left_by(alloc, calls, torn)?;
    recovered(alloc, &bytes)
}

/// Whether the one byte of a write is written as 1.
fn opens(torn: Torn) -> bool {
    matches!(torn, Torn::New | Torn::SecondHalf | Torn::Filled(1))
}

/// A disk whose four bytes were synced, and then the last two written over, with two more behind them.
fn written_over(alloc: Global) -> Result<Memory, Refusal> {
    let mut disk = Memory::new(alloc);
    disk.write_at(0, b"abcd")?;
    disk.sync()?;
    disk.write_at(2, b"WXYZ")?;
    Ok(disk)
}

#[test]
fn a_stop_leaves_of_a_write_what_its_kind_says(rt: HostRuntime) -> Result<(), Fail> {
    let disk = written_over(rt.alloc())?;
    let wanted: [&[u8]; 7] = [
        b"abcd",
        b"abWXYZ",
        b"abWX",
        b"abcdYZ",
        b"ab\0\0\0\0",
        b"ab\x01\x01\x01\x01",
        b"ab\xff\xff\xff\xff",
    ];
    for (torn, wanted) in ALL_TORN.into_iter().zip(wanted) {
        let bytes = left_by(rt.alloc(), disk.calls(), torn)?;
        assert_eq!(rt; bytes.as_slice(), wanted);
    }
    Ok(())
}

#[test]
fn a_stop_leaves_the_bodies_before_or_the_new_one_too(rt: HostRuntime) -> Result<(), Fail> {
    let memory = appended(&rt, rt.alloc())?;
    let calls = memory.calls();
    assert_eq!(rt; calls.len(), 10);
    for torn in ALL_TORN {
        // Calls 7 to 10: the second body, a sync, its gate, a sync.
        let gate = if opens(torn) { 2 } else { 1 };
        for (count, bodies) in [(6, 1), (7, 1), (8, 1), (9, gate), (10, 2)] {
            let recovered = recovered_behind(rt.alloc(), calls, count, torn);
            assert_eq!(rt; recovered, of_bodies(bodies));
        }
    }
    Ok(())
}

/// What a stop leaves within the write of the second body.
fn left_in_the_body(
    alloc: Global,
    calls: &[MemoryCall],
    torn: Torn,
) -> Result<Vec<u8>, AllocError> {
    left_by(alloc, &calls[..calls.len().min(7)], torn)
}

#[test]
fn a_body_that_is_cut_short_leaves_the_bodies_before(rt: HostRuntime) -> Result<(), Fail> {
    let memory = appended(&rt, rt.alloc())?;
    for torn in ALL_TORN {
        let bytes = left_in_the_body(rt.alloc(), memory.calls(), torn)?;
        for length in 222..=bytes.len() {
            let recovered = recovered(rt.alloc(), &bytes[..length]);
            assert_eq!(rt; recovered, of_bodies(1));
        }
    }
    Ok(())
}
