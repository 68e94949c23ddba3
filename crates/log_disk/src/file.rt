//! A disk in a file of the system's.
ghost use Rattle.std.specs.Prelude.{◌≡◌, ◌↔◌, ℕ, ◌+◌, ◌-◌, ◌^◌, ◌<◌, [], length, IfOk, IfErr, IsOk, IsSome, OnOk};
ghost use Rattle.money.specs.declared.refusal.Refusal.TheVariants.{Device};
ghost use Rattle.log_disk.specs.Calls.{Counts};

use crate::disk::Disk;
use crate::failing::{counted, fits, usable};
use crate::opened::opened;
use money::Refusal;
use std::fs::{self, File, OpenOptions, TryLockError};
use std::io::{self, Error};
use std::marker::Model;
use std::os::unix::fs::{FileExt, MetadataExt};
use std::rt::Files;

/// A disk in a file. It isn't modelled: no contract says what bytes a file holds. Contracts see how many of its calls
/// have failed.
#[derive(Drop)]
pub struct FileDisk {
    file: File,
    failures: u64,
    last_error: Option<Error>,
    // Whether the last call that failed was one that writes.
    failed_to_write: bool,
}

impl Model for FileDisk {
    ghost Value = { ℕ };

    ghost view = { λ disk. disk.failures };

    ghost invariant = { λ disk. IsSome disk.last_error ↔ (0 < disk.failures) };
}

impl FileDisk {
    /// A disk in a new file, at this path. The folder, which names the file, isn't synced: `sync_folder` does that.
    ///
    /// # Errors
    ///
    /// `Device` where the system refuses it, or there is a file already.
    pub fn create<R: Files<File = File>>(files: &R, path: &str) -> Result<FileDisk, Refusal>
        ensures ok { IfOk result (λ disk. disk ≡ 0) }
        ensures device { IfErr result (λ refusal. refusal ≡ Device) }
    {
        FileDisk::in_new_file(files, path).map_err(|_| Refusal::Device)
    }

    /// A disk in the file at this path, with the bytes that are there.
    ///
    /// # Errors
    ///
    /// `Device` where the system refuses it, or there is no such file.
    pub fn open<R: Files<File = File>>(files: &R, path: &str) -> Result<FileDisk, Refusal>
        ensures ok { IfOk result (λ disk. disk ≡ 0) }
        ensures device { IfErr result (λ refusal. refusal ≡ Device) }
    {
        FileDisk::in_file(files, path).map_err(|_| Refusal::Device)
    }

    /// As `create`, with the system's error in place of `Device`.
    pub fn in_new_file<R: Files<File = File>>(files: &R, path: &str) -> io::Result<FileDisk>
        ensures { IfOk result (λ disk. disk ≡ 0) }
    {
        let mut options = OpenOptions::new();
        options.read(true).write(true).create_new(true);
        Ok(FileDisk::of(opened(&options, files, path)?))
    }

    /// As `open`, with the system's error in place of `Device`.
    pub fn in_file<R: Files<File = File>>(files: &R, path: &str) -> io::Result<FileDisk>
        ensures { IfOk result (λ disk. disk ≡ 0) }
    {
        let mut options = OpenOptions::new();
        options.read(true).write(true);
        Ok(FileDisk::of(opened(&options, files, path)?))
    }

    /// As `in_file`, of a file that is only to be read, and may be one that can't be written: each write fails.
    pub fn in_file_to_read<R: Files<File = File>>(files: &R, path: &str) -> io::Result<FileDisk>
        ensures { IfOk result (λ disk. disk ≡ 0) }
    {
        let mut options = OpenOptions::new();
        options.read(true);
        Ok(FileDisk::of(opened(&options, files, path)?))
    }

    // The disk in a file that is open.
    fn of(file: File) -> FileDisk
        ensures { result ≡ 0 }
    {
        FileDisk {
            file,
            failures: 0,
            last_error: None,
            failed_to_write: false,
        }
    }

    /// Has the file for this disk alone, until it is dropped: no other disk may lock it so long, in whatever process.
    /// A lock is kept from those alone who ask for one. Never waits.
    ///
    /// # Errors
    ///
    /// `WouldBlock` where another disk has locked the file, else the system's error.
    pub fn try_lock(&self) -> Result<(), TryLockError> {
        self.file.try_lock()
    }

    /// Has the file for this disk and others that share it so, until it is dropped; else as `try_lock`.
    pub fn try_lock_shared(&self) -> Result<(), TryLockError> {
        self.file.try_lock_shared()
    }

    /// Whether this path names the file: one that was renamed or taken away isn't there any longer.
    pub fn is_at<R: Files<File = File>>(&self, files: &R, path: &str) -> io::Result<bool> {
        let (own, named) = (self.file.metadata()?, fs::metadata(files, path)?);
        Ok(own.dev() == named.dev() && own.ino() == named.ino())
    }

    /// Takes away all bytes.
    pub fn clear(&self) -> io::Result<()> {
        self.file.set_len(0)
    }

    /// Why the last call failed that did, or None where none has.
    pub fn last_error(&self) -> Option<Error>
        ensures { IsSome result ↔ (0 < self.now) }
    {
        self.last_error
    }

    /// Whether the last call that failed was a write or a sync, and not one that reads.
    pub fn has_failed_to_write(&self) -> bool {
        self.failed_to_write
    }

    // The answer of a call of the file, which writes or not, as the disk's: a failure is counted, and its error kept.
    fn answered<T: Drop>(&mut self, writes: bool, answer: io::Result<T>) -> Result<T, Refusal>
        requires { self.old < 2 ^ 64 - 1 }
        ensures ok { IfOk answer (λ value. result ≡ Ok value) }
        ensures err { IsOk result → IsOk answer }
        ensures cause { Counts result self.old self.new }
    {
        if let Err(error) = &answer {
            self.last_error = Some(*error);
            self.failed_to_write = writes;
        }
        counted(&mut self.failures, answer)
    }
}

// How many bytes a file has.
fn length_of(file: &File) -> io::Result<u64> {
    Ok(file.metadata()?.len())
}

// Writes all the bytes, where they end below 2^63.
fn write(file: &File, at: u64, bytes: &[u8]) -> io::Result<()>
    ensures { OnOk result (at + length bytes.now < 2 ^ 63) }
{
    if !fits(at, bytes) {
        return Err(io::ErrorKind::InvalidInput.into());
    }
    file.write_all_at(bytes, at)
}

impl Disk for FileDisk {
    ghost is_modelled = { ⊥ };

    ghost seen = { λ disk. [] };

    ghost story = { λ disk. [] };

    ghost failed = { λ disk. disk };

    ghost read_gives = { λ disk never. absurd never };

    fn len(&mut self) -> Result<u64, Refusal> {
        usable(self.failures)?;
        let answer = length_of(&self.file);
        self.answered(false, answer)
    }

    fn read_at(&mut self, at: u64, into: &mut [u8]) -> Result<(), Refusal> {
        usable(self.failures)?;
        let answer = self.file.read_exact_at(into, at);
        self.answered(false, answer)
    }

    fn write_at(&mut self, at: u64, bytes: &[u8]) -> Result<(), Refusal> {
        usable(self.failures)?;
        let answer = write(&self.file, at, bytes);
        self.answered(true, answer)
    }

    fn sync(&mut self) -> Result<(), Refusal> {
        usable(self.failures)?;
        let answer = self.file.sync_all();
        self.answered(true, answer)
    }

    fn failures(&self) -> u64 {
        self.failures
    }
}
