//! A log file of one logger with one entry of one write, field by field, and what comes of its bytes.

use log_scan::scan;
use money::Refusal;
use std::alloc::{AllocError, Global};
use tests_log_files::{disk_of, one_disk, push_header, push_numbers, recovery_of};

/// A write: its table, its place, its kind, and its columns.
#[derive(Clone, Copy)]
pub(crate) struct Written {
    pub(crate) table: u64,
    pub(crate) place: u64,
    pub(crate) kind: u64,
    pub(crate) columns: [u64; 4],
    /// How many of these there are.
    pub(crate) count: usize,
}

/// What such a file states.
#[derive(Clone, Copy)]
pub(crate) struct Stated {
    /// The body's length, where it isn't the one that the bytes have.
    pub(crate) length: Option<u64>,
    pub(crate) mark: u64,
    pub(crate) number: u64,
    pub(crate) tid: u64,
    pub(crate) terminal: u64,
    pub(crate) write: Written,
    /// Whether the write stands there twice.
    pub(crate) is_twice: bool,
    /// The mark of a body without entries behind it, if there is one.
    pub(crate) next: Option<u64>,
}

fn push_write(bytes: &mut Vec<u8>, write: Written) -> Result<(), AllocError> {
    push_numbers(bytes, 1, &[write.table])?;
    push_numbers(bytes, 4, &[write.place])?;
    push_numbers(bytes, 1, &[write.kind])?;
    push_numbers(bytes, 8, &write.columns[..write.count.min(4)])
}

/// Appends the entry.
fn push_entry(bytes: &mut Vec<u8>, stated: Stated) -> Result<(), AllocError> {
    push_numbers(bytes, 8, &[stated.number, stated.tid])?;
    let writes = if stated.is_twice { 2 } else { 1 };
    push_numbers(bytes, 2, &[stated.terminal, writes])?;
    for _ in 0..writes {
        push_write(bytes, stated.write)?;
    }
    Ok(())
}

/// The entry.
fn entry_of(alloc: Global, stated: Stated) -> Result<Vec<u8>, AllocError> {
    let mut bytes = Vec::new(alloc);
    push_entry(&mut bytes, stated)?;
    Ok(bytes)
}

/// Appends an open gate, and a body with this entry.
fn push_body(bytes: &mut Vec<u8>, stated: Stated, entry: &[u8]) -> Result<(), AllocError> {
    bytes.push(1)?;
    let whole = (entry.len() as u64).saturating_add(9);
    push_numbers(bytes, 8, &[stated.length.unwrap_or(whole), stated.mark])?;
    bytes.extend_from_slice(entry)
}

/// Appends, where there is one, the body without entries with an open gate in front, and a closed gate.
fn push_next(bytes: &mut Vec<u8>, stated: Stated) -> Result<(), AllocError> {
    if let Some(mark) = stated.next {
        bytes.push(1)?;
        push_numbers(bytes, 8, &[9, mark])?;
    }
    bytes.push(0)?;
    Ok(())
}

/// The file.
pub(crate) fn file_of(alloc: Global, stated: Stated) -> Result<Vec<u8>, AllocError> {
    let entry = entry_of(alloc, stated)?;
    let mut bytes = Vec::new(alloc);
    push_header(&mut bytes, 0, 1)?;
    push_body(&mut bytes, stated, &entry)?;
    push_next(&mut bytes, stated)?;
    Ok(bytes)
}

/// What bytes are refused by.
#[derive(Clone, Copy, Debug, PartialEq, Eq)]
pub(crate) struct Refused {
    pub(crate) scan: Option<Refusal>,
    pub(crate) recover: Option<Refusal>,
}

/// Bytes that are no log file.
pub(crate) const DAMAGED: Refused = Refused {
    scan: Some(Refusal::Damaged),
    recover: Some(Refusal::Damaged),
};

/// What `scan` refuses these bytes by.
fn by_scan(alloc: Global, bytes: &[u8]) -> Result<Option<Refusal>, Refusal> {
    let mut disk = disk_of(alloc, bytes)?;
    Ok(scan(alloc, &mut disk).err())
}

/// What `recover` does, as the one file of the small plain population.
fn by_recover(alloc: Global, bytes: &[u8]) -> Result<Option<Refusal>, Refusal> {
    let mut disks = one_disk(alloc, bytes)?;
    Ok(recovery_of(alloc, &mut disks).err())
}

pub(crate) fn refusals_of(alloc: Global, bytes: &[u8]) -> Result<Refused, Refusal> {
    Ok(Refused {
        scan: by_scan(alloc, bytes)?,
        recover: by_recover(alloc, bytes)?,
    })
}
