//! What a stop leaves on a disk.

use log_disk::MemoryCall;
use std::alloc::{AllocError, Global};

/// What a stop makes of the bytes of a write that no sync has followed.
#[derive(Clone, Copy, Debug, PartialEq, Eq)]
pub enum Torn {
    /// None is written.
    Old,
    /// All are.
    New,
    /// The first half is.
    FirstHalf,
    /// The other half is.
    SecondHalf,
    /// In place of each stands this one.
    Filled(u8),
}

/// One of each kind, with bytes that a gate may be taken for.
pub const ALL_TORN: [Torn; 7] = [
    Torn::Old,
    Torn::New,
    Torn::FirstHalf,
    Torn::SecondHalf,
    Torn::Filled(0),
    Torn::Filled(1),
    Torn::Filled(255),
];

impl Torn {
    /// What stands for this byte of a text, if anything: the one behind so many of that many.
    fn byte(self, byte: u8, before: usize, of: usize) -> Option<u8> {
        let is_first = before < of / 2;
        match self {
            Torn::Old => None,
            Torn::New => Some(byte),
            Torn::FirstHalf => is_first.then_some(byte),
            Torn::SecondHalf => (!is_first).then_some(byte),
            Torn::Filled(other) => Some(other),
        }
    }
}

/// The bytes that a stop may leave behind these calls of a disk: all that was written before the last sync, and each
/// write behind it torn so.
pub fn left_by(alloc: Global, calls: &[MemoryCall], torn: Torn) -> Result<Vec<u8>, AllocError> {
    let unsynced = calls.iter().rev().take_while(|call| !is_sync(call)).count();
    let synced = calls.len().saturating_sub(unsynced);
    let mut bytes = Vec::new(alloc);
    for (n, call) in calls.iter().enumerate() {
        leave(&mut bytes, call, if n < synced { Torn::New } else { torn })?;
    }
    Ok(bytes)
}

/// Puts a disk's next call on its bytes, torn so, if it is a write.
pub fn leave(bytes: &mut Vec<u8>, call: &MemoryCall, torn: Torn) -> Result<(), AllocError> {
    match call {
        MemoryCall::Write { at, bytes: text } => put(bytes, *at as usize, text, torn),
        MemoryCall::Sync => Ok(()),
    }
}

fn is_sync(call: &MemoryCall) -> bool {
    matches!(call, MemoryCall::Sync)
}

/// Writes a text over what is there and past the end, torn so.
fn put(bytes: &mut Vec<u8>, at: usize, text: &[u8], torn: Torn) -> Result<(), AllocError> {
    for (n, byte) in text.iter().enumerate() {
        if let Some(byte) = torn.byte(*byte, n, text.len()) {
            set(bytes, at.saturating_add(n), byte)?;
        }
    }
    Ok(())
}

/// Sets the byte at this place; zeros stand between the end and a place past it.
fn set(bytes: &mut Vec<u8>, place: usize, byte: u8) -> Result<(), AllocError> {
    if place >= bytes.len() {
        bytes.resize(place.saturating_add(1), 0)?;
    }
    if let Some(old) = bytes.get_mut(place) {
        *old = byte;
    }
    Ok(())
}
