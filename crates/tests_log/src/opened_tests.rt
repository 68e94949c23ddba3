//! Log files that are opened again, and void bodies that are appended to them.
use log_disk::{Disk, Memory};
use log_scan::scan;
use logfile::LogFile;
use money::Refusal;
use std::alloc::Global;
use std::test::Fail;
use tests_disks::{FailingDisk, Fault};
use tests_log_vectors::{PAYMENT, VOID, file_of_payments, first_of_version_1};

/// A disk in memory with the file of one Payment, of epoch 4 and mark 5, that was never synced.
fn written(alloc: Global) -> Result<Memory, Refusal> {
    let file = file_of_payments(alloc, 0, 5, (1, 1))?;
    let mut memory = Memory::new(alloc);
    memory.write_at(0, &file)?;
    Ok(memory)
}

/// Where an open file stands.
#[derive(Clone, Copy, Debug, PartialEq, Eq)]
struct Standing {
    count: u64,
    last: u64,
    mark: u64,
}

fn standing_of<D: Disk>(file: &LogFile<D>) -> Standing {
    Standing {
        count: file.count(),
        last: file.last(),
        mark: file.mark(),
    }
}

/// Where that file stands once it is opened.
const OPENED: Standing = Standing {
    count: 0,
    last: 0,
    mark: 5,
};

/// Behind a void body of epochs 6 to 8.
const DECLARED: Standing = Standing {
    count: 0,
    last: 0,
    mark: 8,
};

/// Appends a void body of epochs 6 to 8.
fn declare<D: Disk>(file: &mut LogFile<D>) -> Result<(), Refusal> {
    if !file.may_be_void(6, 8) {
        return Err(Refusal::BadInput);
    }
    file.append_void(6, 8)
}

/// Where a file stands once it is opened, what two void bodies come to, and where it stands then.
#[derive(Clone, Copy, Debug, PartialEq, Eq)]
struct Outcome {
    opened: Standing,
    first: Result<(), Refusal>,
    again: Result<(), Refusal>,
    standing: Standing,
}

fn outcome_on<D: Disk + Drop>(alloc: Global, disk: D) -> Result<Outcome, Refusal> {
    let mut file = LogFile::open(alloc, disk)?;
    Ok(Outcome {
        opened: standing_of(&file),
        first: declare(&mut file),
        again: declare(&mut file),
        standing: standing_of(&file),
    })
}

/// Where a file stands once it is opened, and behind a void body.
fn declared_on<D: Disk + Drop>(alloc: Global, disk: D) -> Result<(Standing, Standing), Refusal> {
    let mut file = LogFile::open(alloc, disk)?;
    let opened = standing_of(&file);
    declare(&mut file)?;
    Ok((opened, standing_of(&file)))
}

#[test]
fn a_void_body_has_its_bytes(rt: HostRuntime) -> Result<(), Fail> {
    let mut memory = written(rt.alloc())?;
    assert_eq!(rt; declared_on(rt.alloc(), &mut memory)?, (OPENED, DECLARED));
    let bytes = memory.bytes();
    assert_eq!(rt; bytes.len(), 255);
    assert!(rt; bytes.get(221) == Some(&1));
    assert!(rt; bytes.ends_with(&VOID));
    // the test's write, a sync, and the four calls of an append
    assert_eq!(rt; memory.calls().len(), 6);
    Ok(())
}

#[test]
fn a_file_with_a_void_body_is_opened(rt: HostRuntime) -> Result<(), Fail> {
    let mut memory = written(rt.alloc())?;
    declared_on(rt.alloc(), &mut memory)?;
    let file = LogFile::open(rt.alloc(), &mut memory)?;
    assert_eq!(rt; standing_of(&file), DECLARED);
    // epochs before the void ones are past
    assert!(rt; !file.may_be_void(6, 7));
    Ok(())
}

/// What two void bodies come to on a disk one of whose writes and syncs fails, and how many bodies are read back then.
fn failed_at(alloc: Global, call: u64) -> Result<(Outcome, usize), Refusal> {
    let mut memory = written(alloc)?;
    let fault = Fault {
        behind: call,
        bytes: 0,
    };
    let disk = FailingDisk::strict(&mut memory, Some(fault));
    let outcome = outcome_on(alloc, disk)?;
    let (_, bodies) = scan(alloc, &mut memory)?;
    Ok((outcome, bodies.len()))
}

#[test]
fn a_device_that_fails_ends_a_file_that_was_opened(rt: HostRuntime) -> Result<(), Fail> {
    let expected = Outcome {
        opened: OPENED,
        first: Err(Refusal::Device),
        again: Err(Refusal::Device),
        standing: OPENED,
    };
    // The first call is the sync of `open`; behind the last write the gate is open.
    assert!(rt; failed_at(rt.alloc(), 0) == Err(Refusal::Device));
    for (call, bodies) in [(1, 1), (2, 1), (3, 1), (4, 2)] {
        assert_eq!(rt; failed_at(rt.alloc(), call)?, (expected, bodies));
    }
    Ok(())
}

#[test]
fn a_file_is_read_behind_a_sync(rt: HostRuntime) -> Result<(), Fail> {
    let mut memory = written(rt.alloc())?;
    let disk = FailingDisk::strict(&mut memory, None);
    let file = LogFile::open(rt.alloc(), disk)?;
    assert_eq!(rt; standing_of(&file), OPENED);
    Ok(())
}

/// What a disk's bytes are read as, and what opening them for appending comes to.
#[derive(Clone, Copy, Debug, PartialEq, Eq)]
struct Refused {
    version: u32,
    bodies: usize,
    refusal: Option<Refusal>,
    /// How many calls the opening added.
    calls: usize,
}

fn opened_on(alloc: Global, memory: &mut Memory) -> Result<Refused, Refusal> {
    let (header, bodies) = scan(alloc, memory)?;
    let before = memory.calls().len();
    let refusal = LogFile::open(alloc, &mut *memory).err();
    Ok(Refused {
        version: header.version,
        bodies: bodies.len(),
        refusal,
        calls: memory.calls().len().saturating_sub(before),
    })
}

/// A disk in memory with a header of version 1 and these bytes behind it.
fn of_version_1(alloc: Global, rest: &[u8]) -> Result<Memory, Refusal> {
    let mut bytes = Vec::new(alloc);
    bytes.extend_from_slice(&first_of_version_1())?;
    bytes.extend_from_slice(rest)?;
    let mut memory = Memory::new(alloc);
    memory.write_at(0, &bytes)?;
    Ok(memory)
}

/// A file of version 1 without bodies, which is read and not opened: a sync is all that is called.
const OF_VERSION_1: Refused = Refused {
    version: 1,
    bodies: 0,
    refusal: Some(Refusal::Damaged),
    calls: 1,
};

#[test]
fn a_file_of_version_1_is_not_opened(rt: HostRuntime) -> Result<(), Fail> {
    let mut memory = of_version_1(rt.alloc(), &[0])?;
    assert_eq!(rt; opened_on(rt.alloc(), &mut memory), Ok(OF_VERSION_1));
    Ok(())
}

#[test]
fn a_payment_of_version_1_is_not_gone_on_with(rt: HostRuntime) -> Result<(), Fail> {
    let mut rest = [0; 174];
    rest[0] = 1;
    rest[1..173].copy_from_slice(&PAYMENT);
    let mut memory = of_version_1(rt.alloc(), &rest)?;
    assert_eq!(rt; memory.bytes().len(), 222);
    let expected = Refused {
        bodies: 1,
        ..OF_VERSION_1
    };
    assert_eq!(rt; opened_on(rt.alloc(), &mut memory), Ok(expected));
    Ok(())
}
