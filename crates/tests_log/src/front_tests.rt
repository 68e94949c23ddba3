//! How far a log file is read.
ghost use Rattle.std.specs.Prelude.{◌≡◌, ◌+◌, ◌^◌, ◌<◌, [], length, IsOk};
ghost use Rattle.log_disk.specs.Calls.{Counts};

use log_disk::{Disk, Memory};
use log_scan::{scan, text};
use money::Refusal;
use recover_progress::Progress;
use std::alloc::Global;
use std::test::Fail;
use tests_log_vectors::{FIRST, PAYMENT};

/// A disk that says of itself that it has so many bytes, of which only those in front can be read that one in memory
/// has.
#[derive(Drop)]
struct Long<'a> {
    memory: &'a mut Memory,
    size: u64,
    failures: u64,
}

impl Long<'_> {
    /// This answer, as one of a disk that counts its failures.
    fn counted<T: Drop>(&mut self, answer: Result<T, Refusal>) -> Result<T, Refusal>
        ensures ok { IsOk result → IsOk answer }
        ensures cause { Counts result self.old.failures self.new.failures }
    {
        match answer {
            Ok(value) if self.failures < u64::MAX => Ok(value),
            _ => {
                self.failures = self.failures.saturating_add(1);
                Err(Refusal::Device)
            }
        }
    }
}

impl Disk for Long<'_> {
    ghost is_modelled = { ⊥ };

    ghost seen = { λ disk. [] };

    ghost story = { λ disk. [] };

    ghost failed = { λ disk. disk.failures };

    ghost read_gives = { λ disk never. absurd never };

    fn len(&mut self) -> Result<u64, Refusal> {
        let size = self.size;
        self.counted(Ok(size))
    }

    fn read_at(&mut self, at: u64, into: &mut [u8]) -> Result<(), Refusal> {
        let answer = self.memory.read_at(at, into);
        self.counted(answer)
    }

    fn write_at(&mut self, _at: u64, _bytes: &[u8]) -> Result<(), Refusal> {
        self.counted(Err(Refusal::Device))
    }

    fn sync(&mut self) -> Result<(), Refusal> {
        self.counted(Err(Refusal::Device))
    }

    fn failures(&self) -> u64 {
        self.failures
    }
}

/// A disk with the file of one Payment, and so many bytes behind its closed gate.
fn payment(alloc: Global, behind: usize) -> Result<Memory, Refusal> {
    let mut file = Vec::new(alloc);
    file.extend_from_slice(&FIRST)?;
    file.push(1)?;
    file.extend_from_slice(&PAYMENT)?;
    file.push(0)?;
    file.resize(file.len().saturating_add(behind), 7)?;
    disk_of(alloc, &file)
}

/// A disk with a header, an open gate, this length, and so many bytes behind it.
fn with_length(alloc: Global, length: u64, behind: usize) -> Result<Memory, Refusal> {
    let mut file = Vec::new(alloc);
    file.extend_from_slice(&FIRST)?;
    file.push(1)?;
    file.extend_from_slice(&length.to_le_bytes())?;
    file.resize(file.len().saturating_add(behind), 7)?;
    disk_of(alloc, &file)
}

/// A disk with these bytes.
fn disk_of(alloc: Global, bytes: &[u8]) -> Result<Memory, Refusal> {
    let mut disk = Memory::new(alloc);
    disk.write_at(0, bytes)?;
    Ok(disk)
}

/// A disk of so many bytes, with those of one in memory in front.
fn lengthened(memory: &mut Memory, size: u64) -> Long<'_> {
    Long {
        memory,
        size,
        failures: 0,
    }
}

/// How many bytes are read of a disk, whose size is counted, and how many there were to read then.
fn read_of<D: Disk>(alloc: Global, disk: &mut D, size: u64) -> Result<(usize, u64, u64), Refusal> {
    let mut sizes = Vec::new(alloc);
    sizes.push(size)?;
    let progress = Progress::of(sizes);
    let bytes = text(alloc, disk, &progress)?;
    Ok((bytes.len(), progress.read(), progress.to_read()))
}

/// How many bodies a disk has.
fn bodies_of<D: Disk>(alloc: Global, disk: &mut D) -> Result<usize, Refusal> {
    let (_, bodies) = scan(alloc, disk)?;
    Ok(bodies.len())
}

#[test]
fn what_stands_behind_a_closed_gate_is_not_read(rt: HostRuntime) -> Result<(), Fail> {
    for size in [254, 255, 1 << 20, 1 << 40, 1 << 63, u64::MAX] {
        let mut memory = payment(rt.alloc(), 32)?;
        let mut disk = lengthened(&mut memory, size);
        let read = read_of(rt.alloc(), &mut disk, size)?;
        assert_eq!(rt; read, (254, 254, 254));
        assert_eq!(rt; bodies_of(rt.alloc(), &mut disk)?, 1);
        assert_eq!(rt; disk.failures, 0);
    }
    Ok(())
}

#[test]
fn a_file_is_read_to_its_end(rt: HostRuntime) -> Result<(), Fail> {
    for behind in [0, 1, 31, 32] {
        let mut memory = payment(rt.alloc(), behind)?;
        let size = behind.saturating_add(222);
        let read = read_of(rt.alloc(), &mut memory, size as u64)?;
        assert_eq!(rt; read, (size, size as u64, size as u64));
    }
    Ok(())
}

#[test]
fn a_length_without_room_ends_what_is_read(rt: HostRuntime) -> Result<(), Fail> {
    for length in [
        0,
        1,
        8,
        (1 << 40) - 55,
        1 << 40,
        1 << 63,
        u64::MAX - 56,
        u64::MAX - 1,
        u64::MAX,
    ] {
        let mut memory = with_length(rt.alloc(), length, 24)?;
        let mut disk = lengthened(&mut memory, 1 << 40);
        let read = read_of(rt.alloc(), &mut disk, 1 << 40)?;
        assert_eq!(rt; read, (81, 81, 81));
        let outcome = bodies_of(rt.alloc(), &mut disk);
        assert_eq!(rt; outcome, Err(Refusal::Damaged));
        assert_eq!(rt; disk.failures, 0);
    }
    Ok(())
}

#[test]
fn a_length_with_room_is_followed(rt: HostRuntime) -> Result<(), Fail> {
    for length in [9, 24, 1_000, 2_000_000] {
        let mut memory = with_length(rt.alloc(), length, (length as usize).saturating_add(31))?;
        let read = read_of(rt.alloc(), &mut memory, length.saturating_add(88))?;
        assert_eq!(rt; read.0 as u64, length.saturating_add(88));
        let mut disk = lengthened(&mut memory, length.saturating_add(56));
        let outcome = bodies_of(rt.alloc(), &mut disk);
        assert_eq!(rt; outcome, Err(Refusal::Damaged));
        assert_eq!(rt; disk.failures, 0);
    }
    Ok(())
}

#[test]
fn a_body_that_the_disk_cuts_short_is_read_as_far_as_it_goes(rt: HostRuntime) -> Result<(), Fail> {
    let mut memory = payment(rt.alloc(), 0)?;
    for size in [47, 48, 49, 57, 81, 200, 220] {
        let mut disk = lengthened(&mut memory, size);
        let read = read_of(rt.alloc(), &mut disk, size)?.0 as u64;
        assert_eq!(rt; read, size.min(81));
        let outcome = bodies_of(rt.alloc(), &mut disk);
        assert_eq!(rt; outcome, Err(Refusal::Damaged));
    }
    Ok(())
}
