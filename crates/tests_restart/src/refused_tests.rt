//! Restarts that are refused: nothing is written then.

use crate::restarting::restart_on;
use log_disk::{Disk, Memory, MemoryCall};
use money::Refusal;
use std::alloc::{AllocError, Global};
use std::sync::Wait;
use std::test::Fail;
use tests_log_files::{
    ENTRY, disk_of, disks, first, one_disk, push_body, push_entry, push_header, push_numbers,
    push_write, second,
};
use tests_log_vectors::PAYMENT;

/// All bytes of disks.
fn held(alloc: Global, disks: &[Memory]) -> Result<Vec<u8>, AllocError> {
    let mut all = Vec::new(alloc);
    for disk in disks {
        all.extend_from_slice(disk.bytes())?;
    }
    Ok(all)
}

fn is_write(call: &MemoryCall) -> bool {
    matches!(call, MemoryCall::Write { .. })
}

/// How many writes disks have done.
fn writes(disks: &[Memory]) -> usize {
    let mut count = 0usize;
    for disk in disks {
        let own = disk.calls().iter().filter(|call| is_write(call)).count();
        count = count.saturating_add(own);
    }
    count
}

/// What a restart on disks is refused by, how many writes it has done, and whether the bytes are still the same.
#[derive(Clone, Copy, Debug, PartialEq, Eq)]
struct Refused {
    refusal: Option<Refusal>,
    writes: usize,
    is_same: bool,
}

/// A refusal by which nothing is written.
fn refused_by(refusal: Refusal) -> Result<Refused, Refusal> {
    Ok(Refused {
        refusal: Some(refusal),
        writes: 0,
        is_same: true,
    })
}

fn refused_on<R: Wait>(rt: &R, alloc: Global, disks: &mut [Memory]) -> Result<Refused, Refusal> {
    let before = held(alloc, disks)?;
    let done = writes(disks);
    let refusal = restart_on(rt, alloc, disks).err();
    let after = held(alloc, disks)?;
    Ok(Refused {
        refusal,
        writes: writes(disks).saturating_sub(done),
        is_same: before.as_slice() == after.as_slice(),
    })
}

#[test]
fn a_gap_is_refused(rt: HostRuntime) -> Result<(), Fail> {
    let mut disks = disks(rt.alloc(), 0)?;
    let outcome = refused_on(&rt, rt.alloc(), &mut disks);
    assert_eq!(rt; outcome, refused_by(Refusal::Gap));
    Ok(())
}

/// Two disks, of which the first has the second one's file, and the other one this.
fn behind_the_second(alloc: Global, other: &[u8]) -> Result<Vec<Memory>, Refusal> {
    let mut disks = Vec::new(alloc);
    disks.push(disk_of(alloc, &second(alloc)?)?)?;
    disks.push(disk_of(alloc, other)?)?;
    Ok(disks)
}

#[test]
fn exchanged_files_are_refused(rt: HostRuntime) -> Result<(), Fail> {
    let first = first(rt.alloc(), 1)?;
    let mut disks = behind_the_second(rt.alloc(), &first)?;
    let outcome = refused_on(&rt, rt.alloc(), &mut disks);
    assert_eq!(rt; outcome, refused_by(Refusal::Damaged));
    Ok(())
}

/// A disk with the file of one logger whose one entry, a Payment, is of the last epoch that there is.
fn of_the_last_epoch(alloc: Global) -> Result<Vec<Memory>, Refusal> {
    let mut bytes = Vec::new(alloc);
    push_header(&mut bytes, 0, 1)?;
    push_body(&mut bytes, 4_294_967_294, ENTRY)?;
    push_entry(&mut bytes, 1, 4_294_967_295, 0)?;
    bytes.push(0)?;
    one_disk(alloc, &bytes)
}

#[test]
fn no_epoch_is_behind_the_last(rt: HostRuntime) -> Result<(), Fail> {
    let mut disks = of_the_last_epoch(rt.alloc())?;
    let outcome = refused_on(&rt, rt.alloc(), &mut disks);
    assert_eq!(rt; outcome, refused_by(Refusal::EpochFull));
    Ok(())
}

/// Disks with these files, as files of version 1: a restart goes on with none.
fn of_version_1(alloc: Global, files: &mut [Memory]) -> Result<Vec<Memory>, Refusal> {
    let mut disks = Vec::new(alloc);
    for file in files {
        if file.bytes().len() < 8 {
            return Err(Refusal::BadInput);
        }
        file.write_at(8, &[1])?;
        disks.push(disk_of(alloc, file.bytes())?)?;
    }
    Ok(disks)
}

#[test]
fn files_of_version_1_are_refused(rt: HostRuntime) -> Result<(), Fail> {
    let mut files = disks(rt.alloc(), 1)?;
    let mut disks = of_version_1(rt.alloc(), &mut files)?;
    let outcome = refused_on(&rt, rt.alloc(), &mut disks);
    assert_eq!(rt; outcome, refused_by(Refusal::Damaged));
    Ok(())
}

/// Before it is told that no epoch is left.
#[test]
fn a_file_of_version_1_is_refused_whatever_it_holds(rt: HostRuntime) -> Result<(), Fail> {
    let mut files = of_the_last_epoch(rt.alloc())?;
    let mut disks = of_version_1(rt.alloc(), &mut files)?;
    let outcome = refused_on(&rt, rt.alloc(), &mut disks);
    assert_eq!(rt; outcome, refused_by(Refusal::Damaged));
    Ok(())
}

/// A file of one logger whose first entry these bytes are, of commit 1 and epoch 1, which is durable; a Payment of
/// epoch 2 behind it isn't.
fn begun(alloc: Global, entry: &[u8]) -> Result<Vec<u8>, AllocError> {
    let mut bytes = Vec::new(alloc);
    push_header(&mut bytes, 0, 1)?;
    push_body(&mut bytes, 1, ENTRY.saturating_add(entry.len() as u64))?;
    bytes.extend_from_slice(entry)?;
    push_entry(&mut bytes, 2, 2, 0)?;
    bytes.push(0)?;
    Ok(bytes)
}

/// What a restart on that file is refused by.
fn refused_behind<R: Wait>(rt: &R, alloc: Global, entry: &[u8]) -> Result<Refused, Refusal> {
    let bytes = begun(alloc, entry)?;
    let mut disks = one_disk(alloc, &bytes)?;
    refused_on(rt, alloc, &mut disks)
}

/// A restart that declares epoch 2 void, by two writes.
const DECLARED: Refused = Refused {
    refusal: None,
    writes: 2,
    is_same: false,
};

/// The entry of a Payment of 12.34, of which the first byte of W_YTD is this one.
fn paid(byte: u8) -> [u8; 156] {
    let mut entry = [0; 156];
    entry.copy_from_slice(&PAYMENT[16..]);
    entry[26] = byte;
    entry
}

#[test]
fn tables_that_break_a_condition_are_refused(rt: HostRuntime) -> Result<(), Fail> {
    let outcome = refused_behind(&rt, rt.alloc(), &paid(0xf2));
    assert_eq!(rt; outcome, Ok(DECLARED));
    let outcome = refused_behind(&rt, rt.alloc(), &paid(0xf3));
    assert_eq!(rt; outcome, refused_by(Refusal::Damaged));
    Ok(())
}

/// An entry that leaves the stock of item 1 with this S_YTD.
fn supplied(alloc: Global, year_to_date: u64) -> Result<Vec<u8>, AllocError> {
    let mut entry = Vec::new(alloc);
    push_numbers(&mut entry, 8, &[1, 1 << 32])?;
    push_numbers(&mut entry, 2, &[0, 1])?;
    push_write(&mut entry, 9, 0, &[50, year_to_date, 1, 0])?;
    Ok(entry)
}

/// A commit takes no count further up than 150, from 1 at most.
#[test]
fn tables_out_of_reach_are_refused(rt: HostRuntime) -> Result<(), Fail> {
    let entry = supplied(rt.alloc(), 151)?;
    let outcome = refused_behind(&rt, rt.alloc(), &entry);
    assert_eq!(rt; outcome, Ok(DECLARED));
    let entry = supplied(rt.alloc(), 152)?;
    let outcome = refused_behind(&rt, rt.alloc(), &entry);
    assert_eq!(rt; outcome, refused_by(Refusal::Damaged));
    Ok(())
}
