//! Reading the front of a log file that has its text.
ghost use Rattle.std.specs.Prelude.{◌≡◌, ◌≢◌, ◌⊎◌, ◌+◌, ◌-◌, ◌^◌, ◌<◌, ◌≤◌, ℕ, List, [], ◌∷◌, ◌++◌, length, take, drop, min};
ghost use Rattle.std.specs.Prelude.{IfOk, IfErr, IfSome, IfNone, OnOk};
ghost use Rattle.money.specs.declared.refusal.Refusal.TheVariants.{OutOfMemory, Device};
ghost use Rattle.log_codec.specs.Numbers.{number};
ghost use Rattle.log_disk.specs.Calls.{CountsDevice, OnlyReads};
ghost use Rattle.log_scan.specs.Text.{HoldsText, IsClosed, HasNoRoom};
ghost use Rattle.log_scan.specs.Walk.{LeadsOn};

use log_codec::u64_at;
use log_disk::Disk;
use money::Refusal;
use recover_progress::Progress;
use std::alloc::Global;

/// How many bytes a header has.
const HEADER_BYTES: usize = 48;

/// The byte of an open gate: a body stands behind it.
const OPEN: u8 = 1;

/// How many bytes a gate has, and the length behind an open one.
const FRONT: usize = 9;

/// The least length of a body: that of a mark, and the next gate.
const SHORTEST: usize = 9;

/// How many bytes a void body has behind its length.
const VOID_REST: usize = 24;

/// How many bytes are read at once, at most.
const STEP: usize = 1 << 20;

/// The front of a log file on a disk that has all of its text: to the first closed gate, or to a length for which there
/// is no room, and at most 32 bytes more; or the whole disk, where it ends before. What stands behind is neither read
/// nor takes memory. First it goes from gate to gate, by a call of the disk for each body that reads 9 bytes; then it
/// reads the front, by a call for each MiB, and each that was read is noted.
///
/// # Errors
///
/// `Device` only where a call of the disk fails, and else `OutOfMemory`.
pub fn text<D: Disk>(alloc: Global, disk: &mut D, progress: &Progress) -> Result<Vec<u8>, Refusal>
    ensures text { IfOk result (λ bytes. (file : List ℕ) × (length file < 2 ^ 64)
        × (D.is_modelled → file ≡ D.seen disk.old) × HoldsText bytes.items file) }
    ensures counts { CountsDevice result (D.failed disk.old) (D.failed disk.new) }
    ensures others { IfErr result (λ refusal. (refusal ≢ OutOfMemory) → refusal ≡ Device) }
    ensures reads { OnlyReads D.is_modelled D.seen D.story disk.old disk.new }
{
    let size = disk.len()?;
    text_of_size(alloc, disk, size, progress)
}

/// The same of a disk that has so many bytes.
pub fn text_of_size<D: Disk>(
    alloc: Global,
    disk: &mut D,
    size: u64,
    progress: &Progress,
) -> Result<Vec<u8>, Refusal>
    requires { D.is_modelled → size ≡ length (D.seen disk.old) }
    ensures text { IfOk result (λ bytes. (file : List ℕ) × (length file ≡ size)
        × (D.is_modelled → file ≡ D.seen disk.old) × HoldsText bytes.items file) }
    ensures counts { CountsDevice result (D.failed disk.old) (D.failed disk.new) }
    ensures others { IfErr result (λ refusal. (refusal ≢ OutOfMemory) → refusal ≡ Device) }
    ensures reads { OnlyReads D.is_modelled D.seen D.story disk.old disk.new }
{
    let size = size as usize;
    let end = text_end(disk, size)?;
    progress.note_left(size - end);
    let mut bytes = Vec::with_capacity(alloc, end)?;
    read_text(disk, &mut bytes, end, size, progress)?;
    Ok(bytes)
}

/// How many bytes from the front on have a file's text, as its gates are now, on a disk of this size.
fn text_end<D: Disk>(disk: &mut D, size: usize) -> Result<usize, Refusal>
    ensures within { IfOk result (λ end. end ≤ size) }
    ensures counts { CountsDevice result (D.failed disk.old) (D.failed disk.new) }
    ensures others { IfErr result (λ refusal. refusal ≡ Device) }
    ensures reads { OnlyReads D.is_modelled D.seen D.story disk.old disk.new }
{
    let mut gate = HEADER_BYTES;
    let mut front = [0; FRONT];
    while gate < size && size - gate >= FRONT {
        disk.read_at(gate as u64, &mut front)?;
        match body_step(&front, size - gate - FRONT) {
            Some(step) => gate += step,
            None => break,
        }
    }
    Ok(seen_to(gate, size))
}

/// How far a disk of this size is read where its text ends at this gate.
fn seen_to(gate: usize, size: usize) -> usize
    ensures { result ≡ min size (gate + (FRONT + VOID_REST)) }
{
    gate.saturating_add(FRONT + VOID_REST).min(size)
}

/// How far it is from the gate with which bytes begin to the one behind its body, where so many bytes stand behind
/// these; None where the gate is closed, or there is no room for a body of the length that stands there.
fn body_step(bytes: &[u8], behind: usize) -> Option<usize>
    requires { length bytes.now + behind < 2 ^ 64 }
    ensures some { IfSome result (λ step. LeadsOn bytes.now step × (step ≤ length bytes.now + behind)) }
    ensures none { IfNone result (FRONT + VOID_REST ≤ length bytes.now → (others : List ℕ)
        → length others ≤ behind → IsClosed bytes.now ⊎ HasNoRoom bytes.now others) }
{
    let (gate, rest) = bytes.split_first()?;
    if *gate != OPEN {
        return None;
    }
    let (size, content) = u64_at(rest)?;
    let size = size as usize;
    if size < SHORTEST || content.len() + behind < size - 1 {
        return None;
    }
    Some(8 + size)
}

/// Reads the front of a disk of this size that has its text: up to here at least.
fn read_text<D: Disk>(
    disk: &mut D,
    bytes: &mut Vec<u8>,
    end: usize,
    size: usize,
    progress: &Progress,
) -> Result<(), Refusal>
    requires empty { bytes.old.items ≡ [] }
    requires within { end ≤ size }
    ensures text { OnOk result ((others : List ℕ) → length bytes.new.items + length others ≤ size
        → HoldsText bytes.new.items (bytes.new.items ++ others)) }
    ensures within { OnOk result (length bytes.new.items ≤ size) }
    ensures bytes { D.is_modelled → OnOk result
        (bytes.new.items ≡ take (length bytes.new.items) (D.seen disk.old)) }
    ensures counts { CountsDevice result (D.failed disk.old) (D.failed disk.new) }
    ensures others { IfErr result (λ refusal. (refusal ≢ OutOfMemory) → refusal ≡ Device) }
    ensures reads { OnlyReads D.is_modelled D.seen D.story disk.old disk.new }
{
    read_to(disk, bytes, end, progress)?;
    let mut gate = HEADER_BYTES;
    loop {
        read_to(disk, bytes, seen_to(gate, size), progress)?;
        match next_gate(bytes, gate, size) {
            Some(next) => gate = next,
            None => return Ok(()),
        }
    }
}

/// The place of the gate behind the body that stands behind the gate at this place, on a disk of this size that begins
/// with these bytes; None where no body can stand there.
fn next_gate(bytes: &[u8], gate: usize, size: usize) -> Option<usize>
    requires { length bytes.now ≤ size }
    ensures some { IfSome result (λ next. (step : ℕ) × (next ≡ gate + step) × (next ≤ size)
        × (gate ≤ length bytes.now) × LeadsOn (drop gate bytes.now) step) }
    ensures none { IfNone result (gate + (FRONT + VOID_REST) ≤ length bytes.now → (others : List ℕ)
        → length bytes.now + length others ≤ size
        → IsClosed (drop gate bytes.now) ⊎ HasNoRoom (drop gate bytes.now) others) }
{
    let left = bytes.get(gate..)?;
    let step = body_step(left, size - bytes.len())?;
    Some(gate + step)
}

/// Reads on behind the bytes that were read from the front of a disk, up to here at least; where they reach further,
/// nothing is read.
fn read_to<D: Disk>(
    disk: &mut D,
    bytes: &mut Vec<u8>,
    end: usize,
    progress: &Progress,
) -> Result<(), Refusal>
    ensures more { OnOk result ((more : List ℕ) × (bytes.new.items ≡ bytes.old.items ++ more)) }
    ensures size { OnOk result (end ≤ length bytes.new.items) }
    ensures within { (most : ℕ) → length bytes.old.items ≤ most → end ≤ most
        → OnOk result (length bytes.new.items ≤ most) }
    ensures bytes { D.is_modelled → bytes.old.items ≡ take (length bytes.old.items) (D.seen disk.old)
        → OnOk result (bytes.new.items ≡ take (length bytes.new.items) (D.seen disk.old)) }
    ensures counts { CountsDevice result (D.failed disk.old) (D.failed disk.new) }
    ensures others { IfErr result (λ refusal. (refusal ≢ OutOfMemory) → refusal ≡ Device) }
    ensures reads { OnlyReads D.is_modelled D.seen D.story disk.old disk.new }
{
    while bytes.len() < end {
        let step = (end - bytes.len()).min(STEP);
        read_more(disk, bytes, step)?;
        progress.note_bytes(step);
    }
    Ok(())
}

/// Reads so many bytes behind those that were read from the front of a disk.
fn read_more<D: Disk>(disk: &mut D, bytes: &mut Vec<u8>, count: usize) -> Result<(), Refusal>
    requires { length bytes.old.items + count < 2 ^ 64 }
    ensures more { OnOk result ((more : List ℕ) × (bytes.new.items ≡ bytes.old.items ++ more)
        × (length more ≡ count)
        × (D.is_modelled → more ≡ take count (drop (length bytes.old.items) (D.seen disk.old)))) }
    ensures counts { CountsDevice result (D.failed disk.old) (D.failed disk.new) }
    ensures others { IfErr result (λ refusal. (refusal ≢ OutOfMemory) → refusal ≡ Device) }
    ensures reads { OnlyReads D.is_modelled D.seen D.story disk.old disk.new }
{
    let from = bytes.len();
    bytes.resize(from + count, 0)?;
    disk.read_at(from as u64, &mut bytes.as_mut_slice()[from..])?;
    Ok(())
}
