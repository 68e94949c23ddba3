//! Log files read back from disks.
ghost use Rattle.std.specs.Prelude.{◌≡◌, ◌+◌, ◌-◌, ◌^◌, [], min, IsErrOf};
ghost use Rattle.money.specs.declared.refusal.Refusal.TheVariants.{Device};

use log_disk::{Disk, FileDisk, Memory};
use log_scan::scan;
use money::Refusal;
use std::alloc::Global;
use std::fs;
use std::test::Fail;
use tests_log_vectors::{FIRST, PAYMENT};

/// A disk each of whose calls fails.
#[derive(Drop)]
struct Broken {
    failures: u64,
}

impl Broken {
    fn fail<T: Drop>(&mut self) -> Result<T, Refusal>
        ensures failed { self.new.failures ≡ min (self.old.failures + 1) (2 ^ 64 - 1) }
        ensures device { IsErrOf result Device }
    {
        self.failures = self.failures.saturating_add(1);
        Err(Refusal::Device)
    }
}

impl Disk for Broken {
    ghost is_modelled = { ⊥ };

    ghost seen = { λ disk. [] };

    ghost story = { λ disk. [] };

    ghost failed = { λ disk. disk.failures };

    ghost read_gives = { λ disk never. absurd never };

    fn len(&mut self) -> Result<u64, Refusal> {
        self.fail()
    }

    fn read_at(&mut self, _at: u64, _into: &mut [u8]) -> Result<(), Refusal> {
        self.fail()
    }

    fn write_at(&mut self, _at: u64, _bytes: &[u8]) -> Result<(), Refusal> {
        self.fail()
    }

    fn sync(&mut self) -> Result<(), Refusal> {
        self.fail()
    }

    fn failures(&self) -> u64 {
        self.failures
    }
}

/// Puts the file of one Payment on an empty disk, with this gate.
fn put_file<D: Disk>(disk: &mut D, gate: u8) -> Result<(), Refusal>
    requires { D.is_modelled → D.seen disk.old ≡ [] }
{
    let mut file = [0; 222];
    file[..48].copy_from_slice(&FIRST);
    file[48] = gate;
    file[49..221].copy_from_slice(&PAYMENT);
    disk.write_at(0, &file)?;
    disk.sync()
}

/// How many bodies a disk has.
fn scanned<D: Disk>(alloc: Global, disk: &mut D) -> Result<usize, Refusal> {
    let (header, bodies) = scan(alloc, disk)?;
    if header.loggers != 1 {
        return Err(Refusal::BadInput);
    }
    Ok(bodies.len())
}

#[test]
fn a_disk_in_memory_is_read_back(rt: HostRuntime) -> Result<(), Fail> {
    let mut disk = Memory::new(rt.alloc());
    put_file(&mut disk, 1)?;
    assert_eq!(rt; scanned(rt.alloc(), &mut disk)?, 1);
    Ok(())
}

#[test]
fn a_file_is_read_back(rt: HostRuntime) -> Result<(), Fail> {
    let _ = fs::remove_file(&rt, "log-read-back");
    let mut disk = FileDisk::create(&rt, "log-read-back")?;
    put_file(&mut disk, 1)?;
    assert_eq!(rt; scanned(rt.alloc(), &mut disk)?, 1);
    Ok(())
}

#[test]
fn a_closed_gate_ends_what_is_read_back(rt: HostRuntime) -> Result<(), Fail> {
    let mut disk = Memory::new(rt.alloc());
    put_file(&mut disk, 2)?;
    assert_eq!(rt; scanned(rt.alloc(), &mut disk)?, 0);
    Ok(())
}

#[test]
fn an_empty_disk_is_no_log_file(rt: HostRuntime) -> Result<(), Fail> {
    let mut disk = Memory::new(rt.alloc());
    assert!(rt; matches!(scanned(rt.alloc(), &mut disk), Err(Refusal::Damaged)));
    assert_eq!(rt; disk.failures(), 0);
    Ok(())
}

#[test]
fn a_disk_that_fails_is_told_by_device(rt: HostRuntime) -> Result<(), Fail> {
    let mut disk = Broken { failures: 0 };
    assert!(rt; matches!(scanned(rt.alloc(), &mut disk), Err(Refusal::Device)));
    assert_eq!(rt; disk.failures, 1);
    Ok(())
}
