//! Disks in memory and in files.
use log_disk::{Disk, FileDisk, Memory, MemoryCall, sync_folder};
use money::Refusal;
use std::fs::{self, TryLockError};
use std::io::ErrorKind;
use std::rt::Files;
use std::test::Fail;

/// Writes where that leaves no gap.
fn put<D: Disk + Drop>(mut disk: D, at: u64, bytes: &[u8]) -> Result<(), Refusal> {
    if disk.len()? < at {
        return Err(Refusal::BadInput);
    }
    disk.write_at(at, bytes)
}

/// The three bytes from this place on.
fn three_at<D: Disk + Drop>(mut disk: D, at: u64) -> Result<[u8; 3], Refusal> {
    let mut into = [0; 3];
    disk.read_at(at, &mut into)?;
    Ok(into)
}

/// Whether the call is a write of these bytes at this place.
fn is_write(call: Option<&MemoryCall>, place: u64, text: &[u8]) -> bool {
    match call {
        Some(MemoryCall::Write { at, bytes }) => *at == place && bytes.as_slice() == text,
        _ => false,
    }
}

/// Whether the call is a sync.
fn is_sync(call: Option<&MemoryCall>) -> bool {
    matches!(call, Some(MemoryCall::Sync))
}

/// A disk in a new file, whatever an earlier run left there.
fn fresh<R: Files<File = fs::File>>(files: &R, path: &str) -> Result<FileDisk, Refusal> {
    let _ = fs::remove_file(files, path);
    FileDisk::create(files, path)
}

/// Of what kind the last failure of a disk was.
fn last_kind(disk: &FileDisk) -> Option<ErrorKind> {
    disk.last_error().map(|error| error.kind())
}

/// Whether another disk has locked the file of this one, which could share it otherwise.
fn is_kept_from(disk: &FileDisk) -> bool {
    matches!(disk.try_lock_shared(), Err(TryLockError::WouldBlock))
}

#[test]
fn memory_reads_what_was_written(rt: HostRuntime) -> Result<(), Fail> {
    let mut disk = Memory::new(rt.alloc());
    put(&mut disk, 0, b"hello")?;
    put(&mut disk, 1, b"a")?;
    put(&mut disk, 4, b"o!!")?;
    assert!(rt; disk.bytes() == b"hallo!!".as_slice());
    assert!(rt; three_at(&mut disk, 3) == Ok(*b"lo!"));
    assert!(rt; disk.len() == Ok(7));
    assert!(rt; disk.failures() == 0);
    Ok(())
}

#[test]
fn memory_records_its_calls_in_order(rt: HostRuntime) -> Result<(), Fail> {
    let mut disk = Memory::new(rt.alloc());
    put(&mut disk, 0, b"one")?;
    disk.sync()?;
    put(&mut disk, 1, b"two")?;
    let calls = disk.calls();
    assert!(rt; calls.len() == 3);
    assert!(rt; is_write(calls.first(), 0, b"one"));
    assert!(rt; is_sync(calls.get(1)));
    assert!(rt; is_write(calls.get(2), 1, b"two"));
    Ok(())
}

#[test]
fn a_read_past_the_end_is_a_failure(rt: HostRuntime) -> Result<(), Fail> {
    let mut disk = Memory::new(rt.alloc());
    put(&mut disk, 0, b"abcd")?;
    assert!(rt; three_at(&mut disk, 2) == Err(Refusal::Device));
    assert!(rt; disk.failures() == 1);
    assert!(rt; three_at(&mut disk, 1) == Ok(*b"bcd"));
    assert!(rt; disk.failures() == 1);
    assert!(rt; disk.calls().len() == 1);
    Ok(())
}

#[test]
fn a_file_is_written_and_read_back(rt: HostRuntime) -> Result<(), Fail> {
    let mut disk = fresh(&rt, "disk-written")?;
    assert!(rt; FileDisk::create(&rt, "disk-written").err() == Some(Refusal::Device));
    assert!(rt; put(&mut disk, 0, b"hello").is_ok());
    assert!(rt; put(&mut disk, 1, b"a").is_ok());
    assert!(rt; disk.sync().is_ok());
    assert!(rt; three_at(&mut disk, 0) == Ok(*b"hal"));
    let mut again = FileDisk::open(&rt, "disk-written")?;
    assert!(rt; again.len() == Ok(5));
    assert!(rt; three_at(&mut again, 2) == Ok(*b"llo"));
    assert!(rt; again.failures() == 0);
    assert!(rt; fs::remove_file(&rt, "disk-written").is_ok());
    Ok(())
}

#[test]
fn failures_of_a_file_are_counted(rt: HostRuntime) -> Result<(), Fail> {
    assert!(rt; FileDisk::open(&rt, "disk-missing").err() == Some(Refusal::Device));
    let mut disk = fresh(&rt, "disk-failing")?;
    assert!(rt; last_kind(&disk).is_none());
    assert!(rt; three_at(&mut disk, 0) == Err(Refusal::Device));
    assert!(rt; disk.failures() == 1);
    assert!(rt; last_kind(&disk) == Some(ErrorKind::UnexpectedEof));
    assert!(rt; !disk.has_failed_to_write());
    assert!(rt; disk.write_at(1 << 63, b"a") == Err(Refusal::Device));
    assert!(rt; disk.failures() == 2);
    assert!(rt; disk.has_failed_to_write());
    assert!(rt; disk.len() == Ok(0));
    assert!(rt; last_kind(&disk) == Some(ErrorKind::InvalidInput));
    assert!(rt; fs::remove_file(&rt, "disk-failing").is_ok());
    Ok(())
}

#[test]
fn a_locked_file_is_kept_from_other_disks(rt: HostRuntime) -> Result<(), Fail> {
    let disk = fresh(&rt, "disk-locked")?;
    let other = FileDisk::open(&rt, "disk-locked")?;
    assert!(rt; disk.try_lock().is_ok());
    assert!(rt; is_kept_from(&other));
    assert!(rt; disk.try_lock_shared().is_ok());
    assert!(rt; !is_kept_from(&other));
    assert!(rt; disk.try_lock().is_err());
    assert!(rt; fs::remove_file(&rt, "disk-locked").is_ok());
    Ok(())
}

/// Whether a path names the file of a disk, where something is there.
fn is_at<R: Files<File = fs::File>>(files: &R, disk: &FileDisk, path: &str) -> Option<bool> {
    disk.is_at(files, path).ok()
}

#[test]
fn a_file_keeps_its_disk_under_another_name(rt: HostRuntime) -> Result<(), Fail> {
    let mut disk = fresh(&rt, "disk-named")?;
    assert!(rt; put(&mut disk, 0, b"hello").is_ok());
    assert!(rt; is_at(&rt, &disk, "disk-named") == Some(true));
    assert!(rt; fs::rename(&rt, "disk-named", "disk-renamed").is_ok());
    assert!(rt; is_at(&rt, &disk, "disk-named").is_none());
    assert!(rt; is_at(&rt, &disk, "disk-renamed") == Some(true));
    assert!(rt; fresh(&rt, "disk-named").is_ok());
    assert!(rt; is_at(&rt, &disk, "disk-named") == Some(false));
    assert!(rt; disk.clear().is_ok());
    assert!(rt; disk.len() == Ok(0));
    assert!(rt; fs::remove_file(&rt, "disk-named").is_ok());
    assert!(rt; fs::remove_file(&rt, "disk-renamed").is_ok());
    Ok(())
}

#[test]
fn a_file_to_be_read_is_not_written(rt: HostRuntime) -> Result<(), Fail> {
    assert!(rt; put(fresh(&rt, "disk-read")?, 0, b"hello").is_ok());
    let Ok(mut disk) = FileDisk::in_file_to_read(&rt, "disk-read") else {
        return Err(Refusal::Device.into());
    };
    assert!(rt; three_at(&mut disk, 2) == Ok(*b"llo"));
    assert!(rt; put(&mut disk, 0, b"a") == Err(Refusal::Device));
    assert!(rt; three_at(&mut disk, 0) == Ok(*b"hel"));
    assert!(rt; fs::remove_file(&rt, "disk-read").is_ok());
    Ok(())
}

#[test]
fn a_folder_is_synced_or_missing(rt: HostRuntime) -> Result<(), Fail> {
    assert!(rt; sync_folder(&rt, ".").is_ok());
    assert!(rt; sync_folder(&rt, "folder-missing").is_err());
    Ok(())
}
