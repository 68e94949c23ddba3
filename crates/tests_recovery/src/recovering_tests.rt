//! What is recovered of log files: of two, of one whose last gate may hold any byte, and of bytes that are none.

use money::{Cents, Refusal};
use recover::recover;
use std::alloc::{AllocError, Global};
use std::test::Fail;
use tables::{CustomerKey, Tables};
use tests_log_files::{
    ENTRY, Recovery, disks, one_disk, push_body, push_entry_of, push_header, recovery_of, small,
    unwatched,
};

/// The balance of a customer of district 1, in cents.
fn balance(tables: &Tables, customer: u32) -> Option<Cents> {
    let key = CustomerKey {
        warehouse: 1,
        district: 1,
        customer,
    };
    Some(tables.customers.get(&key)?.balance)
}

#[test]
fn customers_of_later_epochs_have_not_paid(rt: HostRuntime) -> Result<(), Fail> {
    let population = small(rt.alloc())?;
    let mut disks = disks(rt.alloc(), 1)?;
    let progress = unwatched(rt.alloc());
    let found = recover(rt.alloc(), &population, &mut disks, &progress)?;
    assert_eq!(rt; (found.durable, found.commits), (5, 2));
    assert_eq!(rt; balance(&found.tables, 2), Some(Cents::new(-1_100)));
    assert_eq!(rt; balance(&found.tables, 3), Some(Cents::new(-1_000)));
    Ok(())
}

/// What the one file of these bytes recovers to.
fn outcome(alloc: Global, bytes: &[u8]) -> Result<Recovery, Refusal> {
    let mut disks = one_disk(alloc, bytes)?;
    recovery_of(alloc, &mut disks)
}

/// One logger's file of two bodies, with this byte in the gate of the second.
fn gated(alloc: Global, gate: u8) -> Result<Vec<u8>, AllocError> {
    let mut bytes = Vec::new(alloc);
    push_header(&mut bytes, 0, 1)?;
    for number in 1..3u32 {
        push_body(&mut bytes, u64::from(number), ENTRY)?;
        push_entry_of(&mut bytes, number + 2, number, number, 0)?;
    }
    bytes.push(0)?;
    if let Some(at) = bytes.get_mut(221) {
        *at = gate;
    }
    Ok(bytes)
}

#[test]
fn a_body_counts_by_the_byte_1_alone(rt: HostRuntime) -> Result<(), Fail> {
    for gate in 0..=255u8 {
        let bytes = gated(rt.alloc(), gate)?;
        let bodies = if gate == 1 { 2 } else { 1 };
        let expected = Recovery {
            durable: bodies,
            commits: bodies,
        };
        assert_eq!(rt; bytes.len(), 395);
        assert_eq!(rt; outcome(rt.alloc(), &bytes), Ok(expected));
    }
    Ok(())
}

/// A header, and one byte behind it.
fn begun(alloc: Global, gate: u8) -> Result<Vec<u8>, AllocError> {
    let mut bytes = Vec::new(alloc);
    push_header(&mut bytes, 0, 1)?;
    bytes.push(gate)?;
    Ok(bytes)
}

#[test]
fn a_header_is_to_be_whole(rt: HostRuntime) -> Result<(), Fail> {
    let mut bytes = begun(rt.alloc(), 1)?;
    assert_eq!(rt; outcome(rt.alloc(), &bytes), Err(Refusal::Damaged));
    bytes.truncate(47);
    assert_eq!(rt; outcome(rt.alloc(), &bytes), Err(Refusal::Damaged));
    Ok(())
}

#[test]
fn a_file_without_bodies_has_epoch_0(rt: HostRuntime) -> Result<(), Fail> {
    let bytes = begun(rt.alloc(), 2)?;
    let expected = Recovery {
        durable: 0,
        commits: 0,
    };
    assert_eq!(rt; outcome(rt.alloc(), &bytes), Ok(expected));
    Ok(())
}
