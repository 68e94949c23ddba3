//! Files that are no log file of a database, and files that don't fit each other.

use crate::stated::{DAMAGED, refusals_of};
use log_disk::Memory;
use money::Refusal;
use std::alloc::{AllocError, Global};
use std::test::Fail;
use tests_log_files::{
    ENTRY, disk_of, first, outcome_of, push_body, push_entry, push_header, second,
};
use tests_log_vectors::FIRST;

#[test]
fn a_header_without_a_gate_is_damage(rt: HostRuntime) -> Result<(), Fail> {
    for length in 0..=48 {
        assert_eq!(rt; refusals_of(rt.alloc(), &FIRST[..length]), Ok(DAMAGED));
    }
    Ok(())
}

/// Two disks with these bytes.
fn pair(alloc: Global, one: &[u8], other: &[u8]) -> Result<Vec<Memory>, Refusal> {
    let mut disks = Vec::new(alloc);
    disks.push(disk_of(alloc, one)?)?;
    disks.push(disk_of(alloc, other)?)?;
    Ok(disks)
}

/// What `recover` refuses two files by.
fn refusal_of(alloc: Global, one: &[u8], other: &[u8]) -> Result<Option<Refusal>, Refusal> {
    let mut disks = pair(alloc, one, other)?;
    Ok(outcome_of(alloc, &mut disks).err())
}

#[test]
fn exchanged_files_are_damage(rt: HostRuntime) -> Result<(), Fail> {
    let (one, other) = (first(rt.alloc(), 1)?, second(rt.alloc())?);
    let damaged = Some(Refusal::Damaged);
    assert_eq!(rt; refusal_of(rt.alloc(), &one, &other), Ok(None));
    assert_eq!(rt; refusal_of(rt.alloc(), &other, &one), Ok(damaged));
    assert_eq!(rt; refusal_of(rt.alloc(), &one, &one), Ok(damaged));
    Ok(())
}

/// A file with this byte at a place.
fn with_byte(mut bytes: Vec<u8>, place: usize, byte: u8) -> Vec<u8> {
    if let Some(old) = bytes.get_mut(place) {
        *old = byte;
    }
    bytes
}

/// The second file with this byte at a place.
fn second_with(alloc: Global, place: usize, byte: u8) -> Result<Vec<u8>, AllocError> {
    Ok(with_byte(second(alloc)?, place, byte))
}

/// What two files of these versions are refused by.
fn refusal_of_versions(alloc: Global, one: u8, other: u8) -> Result<Option<Refusal>, Refusal> {
    let first = with_byte(first(alloc, 1)?, 8, one);
    let second = second_with(alloc, 8, other)?;
    refusal_of(alloc, &first, &second)
}

#[test]
fn files_of_one_version_are_read_and_of_two_are_damage(rt: HostRuntime) -> Result<(), Fail> {
    let damaged = Some(Refusal::Damaged);
    for (one, other, refusal) in [
        (1, 1, None),
        (2, 2, None),
        (1, 2, damaged),
        (2, 1, damaged),
        (3, 3, damaged),
        (0, 0, damaged),
    ] {
        assert_eq!(rt; refusal_of_versions(rt.alloc(), one, other), Ok(refusal));
    }
    Ok(())
}

#[test]
fn a_file_of_another_population_is_damage(rt: HostRuntime) -> Result<(), Fail> {
    let one = first(rt.alloc(), 1)?;
    // Two warehouses, three districts, 11 customers, 21 items, orders up to 31, 1,001 commits, the seed 1.
    let others = [
        (16, 2),
        (20, 3),
        (24, 11),
        (28, 21),
        (32, 31),
        (36, 0xe9),
        (40, 1),
    ];
    for (place, byte) in others {
        let other = second_with(rt.alloc(), place, byte)?;
        let refusal = refusal_of(rt.alloc(), &one, &other);
        assert_eq!(rt; refusal, Ok(Some(Refusal::Damaged)));
    }
    Ok(())
}

/// A file of two loggers, with one body of mark 5: commit 1, of epoch 4, by its first terminal.
fn of_commit_1(alloc: Global, logger: u64) -> Result<Vec<u8>, AllocError> {
    let mut bytes = Vec::new(alloc);
    push_header(&mut bytes, logger, 2)?;
    push_body(&mut bytes, 5, ENTRY)?;
    push_entry(&mut bytes, 1, 4, logger)?;
    bytes.push(0)?;
    Ok(bytes)
}

#[test]
fn a_commit_in_both_files_is_a_gap(rt: HostRuntime) -> Result<(), Fail> {
    let (one, other) = (of_commit_1(rt.alloc(), 0)?, of_commit_1(rt.alloc(), 1)?);
    let refusal = refusal_of(rt.alloc(), &one, &other);
    assert_eq!(rt; refusal, Ok(Some(Refusal::Gap)));
    Ok(())
}
