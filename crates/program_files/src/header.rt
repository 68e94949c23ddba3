//! The header of a log file, which is only read.
ghost use Rattle.std.specs.Prelude.{◌≡◌, ◌≤◌, ◌<◌, IfErr, IfOk, length};
ghost use Rattle.log_header.specs.Header.{IsHeader};
ghost use Rattle.program_files.specs.Headless.{IsWhyHeadless};

use crate::fault::Trouble;
use log_disk::{Disk, FileDisk};
use log_flaws::{FileFlaw, headless};
use log_header::{Header, read_header};
use money::Refusal;
use std::fs::File;
use std::io::Error;
use std::rt::Files;

/// How many bytes a header has.
pub(crate) const HEADER_BYTES: usize = 48;

/// Why a file has no header.
#[derive(Clone, Copy, Debug)]
pub enum Headless {
    /// It couldn't be opened or read.
    Unread(Trouble),
    /// Its first bytes are none.
    Flawed(FileFlaw),
}

/// The header with which the file of this path begins.
pub fn first_header<T: Files<File = File>>(rt: &T, path: &str) -> Result<Header, Headless>
    ensures header { IfOk result (λ header. IsHeader header) }
    ensures headless { IfErr result IsWhyHeadless }
{
    let mut disk = match FileDisk::in_file_to_read(rt, path) {
        Ok(disk) => disk,
        Err(error) => return Err(Headless::Unread(Trouble::NotOpened(error))),
    };
    let mut bytes = [0; HEADER_BYTES];
    let count = match first_bytes(&mut disk, &mut bytes) {
        Ok(count) => count,
        Err(error) => return Err(Headless::Unread(Trouble::NotRead(error))),
    };
    let file = &bytes[..count];
    match read_header(file) {
        Some((header, _)) => Ok(header),
        None => Err(Headless::Flawed(headless(file))),
    }
}

/// Reads the first bytes of a file, and tells how many there are, of those that have a place here.
fn first_bytes(disk: &mut FileDisk, into: &mut [u8]) -> Result<usize, Error>
    ensures within { IfOk result (λ count. count ≤ length into.new) }
    ensures size { length into.new ≡ length into.old }
{
    match read_first(disk, into) {
        Ok(count) => Ok(count),
        Err(_) => Err(disk.last_error().unwrap()),
    }
}

/// The same of any disk, which knows why it failed.
fn read_first<D: Disk>(disk: &mut D, into: &mut [u8]) -> Result<usize, Refusal>
    ensures within { IfOk result (λ count. count ≤ length into.new) }
    ensures size { length into.new ≡ length into.old }
    ensures failed { IfErr result (λ _. 0 < D.failed disk.new) }
{
    let length = disk.len()?;
    let count = into.len().min(length as usize);
    disk.read_at(0, &mut into[..count])?;
    Ok(count)
}
