//! Reading entries and bodies. No count of a file takes memory that its bytes don't pay for: vectors grow by what is
//! read, one after the other, or have room for no more than the bytes that are left can hold.
ghost use Rattle.std.specs.Prelude.{◌≡◌, ◌≤◌, ◌+◌, ◌-◌, length, map};
ghost use Rattle.log_codec.specs.Read.{many, filled};
ghost use Rattle.log_text.specs.Entries.{logged};
ghost use Rattle.log_text.specs.Bodies.{body_of};
ghost use Rattle.std.specs.Option.{option_map};
ghost use Rattle.log_text.specs.Read.{Gives, body_from, content_from, entries_from, entry_from, void_from, write_from};

use crate::body::{Body, VOID_MARK};
use crate::entry::LoggedEntry;
use crate::reading::write_from;
use crate::write::Write;
use log_codec::{u16_at, u64_at};
use money::Refusal;
use std::alloc::Global;
use tables::limits::MAX_WRITES;

/// The bytes of a write without columns: its table, its place, and that the record is absent.
const SHORTEST_WRITE: usize = 6;

/// So many writes, one behind the other.
fn writes_from(alloc: Global, count: u16, bytes: &[u8]) -> Result<(Vec<Write>, &[u8]), Refusal>
    ensures { Gives (λ x. (x.0.items, x.1.now)) result (many count write_from bytes.now) }
{
    let most = usize::from(count).min(bytes.len() / SHORTEST_WRITE);
    let mut writes = Vec::with_capacity(alloc, most)?;
    let mut rest = bytes;
    'writes: for _ in 0..count {
        let (write, behind) = write_from(alloc, rest)?;
        let Ok(()) = writes.push(write) else {
            return Err(Refusal::OutOfMemory);
        };
        rest = behind;
    }
    Ok((writes, rest))
}

/// The entry that the bytes begin with, and the bytes behind it. Its count of writes is tested before they are read.
#[tactic(auto, unfolding(crate::specs::Read::entry_from, log_codec::specs::Read::both, log_codec::specs::Read::chosen))]
fn entry_from(alloc: Global, bytes: &[u8]) -> Result<(LoggedEntry, &[u8]), Refusal>
    ensures { Gives (λ x. (logged x.0, x.1.now)) result (entry_from bytes.now) }
{
    let (number, rest) = u64_at(bytes).ok_or(Refusal::Damaged)?;
    let (tid, rest) = u64_at(rest).ok_or(Refusal::Damaged)?;
    let (terminal, rest) = u16_at(rest).ok_or(Refusal::Damaged)?;
    let (count, rest) = u16_at(rest).ok_or(Refusal::Damaged)?;
    if usize::from(count) > MAX_WRITES + 1 {
        return Err(Refusal::Damaged);
    }
    let (writes, rest) = writes_from(alloc, count, rest)?;
    let entry = LoggedEntry {
        number,
        tid,
        terminal,
        writes,
    };
    Ok((entry, rest))
}

/// Entries up to the last byte.
fn entries_from(alloc: Global, bytes: &[u8]) -> Result<Vec<LoggedEntry>, Refusal>
    ensures { Gives (λ entries. map logged entries.items) result (entries_from bytes.now) }
{
    let mut entries = Vec::new(alloc);
    let mut rest = bytes;
    'entries: while rest.len() > 0 {
        let (entry, behind) = entry_from(alloc, rest)?;
        let Ok(()) = entries.push(entry) else {
            return Err(Refusal::OutOfMemory);
        };
        rest = behind;
    }
    Ok(entries)
}

/// The range of a void body, behind what stands in its mark's place.
#[tactic(auto, unfolding(crate::specs::Read::void_from))]
fn void_from(bytes: &[u8]) -> Option<Body>
    ensures { option_map body_of result ≡ void_from bytes.now }
{
    let (low, rest) = u64_at(bytes)?;
    let (high, rest) = u64_at(rest)?;
    if rest.len() != 0 {
        return None;
    }
    Some(Body::Void(low, high))
}

#[tactic(auto, unfolding(crate::specs::Read::content_from))]
fn content_from(alloc: Global, bytes: &[u8]) -> Result<Body, Refusal>
    ensures { Gives body_of result (content_from bytes.now) }
{
    let (mark, rest) = u64_at(bytes).ok_or(Refusal::Damaged)?;
    if mark == VOID_MARK {
        return void_from(rest).ok_or(Refusal::Damaged);
    }
    let entries = entries_from(alloc, rest)?;
    Ok(Body::Entries(mark, entries))
}

/// The body that the bytes begin with, before its rules are asked, and the bytes behind it, the first of which is to be
/// the next gate.
#[tactic(auto, unfolding(crate::specs::Read::body_from))]
pub(crate) fn body_from(alloc: Global, bytes: &[u8]) -> Result<(Body, &[u8]), Refusal>
    ensures { Gives (λ x. (body_of x.0, x.1.now)) result (body_from bytes.now) }
{
    let (size, rest) = u64_at(bytes).ok_or(Refusal::Damaged)?;
    if size < 9 || size - 1 > rest.len() as u64 {
        return Err(Refusal::Damaged);
    }
    let (content, rest) = rest.split_at(size as usize - 1);
    let body = content_from(alloc, content)?;
    Ok((body, rest))
}
