//! Two log files on disks in memory: five Payments of 1.00 in epochs 4 to 8, the first in the first file.

ghost use Rattle.std.specs.Prelude.{◌≡◌, [], ◌∷◌, map, IfOk};
ghost use Rattle.log_disk.specs.Memory.{replayed_calls};
ghost use Rattle.tables.specs.Sizes.{sizes};
ghost use Rattle.population.specs.Initial.{initial};
ghost use Rattle.population_tables.specs.Plain.{IsPlain};

use crate::bytes::{ENTRY, push_body, push_entry, push_header};
use log_disk::{Disk, Memory};
use money::Refusal;
use population::Population;
use recover_progress::Progress;
use std::alloc::{AllocError, Global};
use tables::Scale;
use tests_log_vectors::VOID;

/// The plain population of the files' database.
pub fn small(alloc: Global) -> Result<Population, Refusal>
    ensures { IfOk result (λ population. IsPlain (sizes 1 2 10 20 30 1000) (initial population)) }
{
    Population::plain(alloc, Scale::new(1, 2, 10, 20, 30, 1_000)?)
}

/// The first file: one body of mark 5, with so many entries, 0 or 1.
pub fn first(alloc: Global, entries: u64) -> Result<Vec<u8>, AllocError> {
    let mut bytes = Vec::new(alloc);
    push_header(&mut bytes, 0, 2)?;
    push_body(&mut bytes, 5, ENTRY.saturating_mul(entries))?;
    for _ in 0..entries {
        push_entry(&mut bytes, 1, 4, 0)?;
    }
    bytes.push(0)?;
    Ok(bytes)
}

/// The second file: one body of mark 7, with the other four.
pub fn second(alloc: Global) -> Result<Vec<u8>, AllocError> {
    let mut bytes = Vec::new(alloc);
    push_header(&mut bytes, 1, 2)?;
    push_body(&mut bytes, 7, 4 * ENTRY)?;
    for number in 2..6u32 {
        push_entry(&mut bytes, number, number + 3, 1)?;
    }
    bytes.push(0)?;
    Ok(bytes)
}

/// The progress of a recovery that nobody asks for.
pub fn unwatched(alloc: Global) -> Progress {
    Progress::of(Vec::new(alloc))
}

/// A disk with these bytes.
pub fn disk_of(alloc: Global, bytes: &[u8]) -> Result<Memory, Refusal>
    ensures { IfOk result (λ disk. (replayed_calls disk.calls).bytes ≡ bytes.now) }
{
    let mut disk = Memory::new(alloc);
    disk.write_at(0, bytes)?;
    Ok(disk)
}

/// The disks of both files, of which the first has so many entries.
pub fn disks(alloc: Global, entries: u64) -> Result<Vec<Memory>, Refusal> {
    let mut disks = Vec::new(alloc);
    disks.push(disk_of(alloc, &first(alloc, entries)?)?)?;
    disks.push(disk_of(alloc, &second(alloc)?)?)?;
    Ok(disks)
}

/// A disk with these bytes, alone.
pub fn one_disk(alloc: Global, bytes: &[u8]) -> Result<Vec<Memory>, Refusal>
    ensures { IfOk result (λ disks. map (λ disk. (replayed_calls disk.calls).bytes) disks.items ≡ bytes.now ∷ []) }
{
    let mut disks = Vec::new(alloc);
    disks.push(disk_of(alloc, bytes)?)?;
    Ok(disks)
}

/// The disk of the first file, alone.
pub fn first_disk(alloc: Global) -> Result<Vec<Memory>, Refusal> {
    let bytes = first(alloc, 1)?;
    one_disk(alloc, &bytes)
}

/// Puts a void body of epochs 6 to 8 behind the file of this logger, and gives the file's length.
pub fn declare(disks: &mut [Memory], logger: usize) -> Result<u64, Refusal> {
    let Some(disk) = disks.get_mut(logger) else {
        return Err(Refusal::BadInput);
    };
    let end = disk.len()?.saturating_sub(1);
    disk.write_at(end, &[1])?;
    disk.write_at(end.saturating_add(1), &VOID)?;
    disk.len()
}
