//! A disk in memory.
ghost use Rattle.std.specs.Prelude.{◌≡◌, ◌+◌, ◌-◌, ◌^◌, ◌<◌, ◌≤◌, ⊤, [], ◌∷◌, ◌++◌};
ghost use Rattle.std.specs.Prelude.{length, take, drop, IsOk, IfOk, OnOk, OnErr};
ghost use Rattle.log_disk.specs.Calls.{written, WriteLeft, Counts};
ghost use Rattle.log_disk.specs.Crashes.{Torn};
ghost use Rattle.log_disk.specs.declared.memory_call.MemoryCall.TheVariants.{Sync};
ghost use Rattle.log_disk.specs.Memory.{MemoryView, IsWriteOf, Records, replayed_calls};
ghost use Rattle.log_disk.specs.Replayed.{replay_may_leave};

use crate::disk::Disk;
use crate::failing::{counted, fits, usable};
use crate::memory_call::MemoryCall;
use money::Refusal;
use std::alloc::{AllocError, Global};
use std::marker::Model;

/// A modelled disk, in memory. It records the writes and syncs that it has done, and its bytes are what these leave
/// (`replayed_calls`). Want of memory is its device's failure, after which bytes and calls are as before.
#[derive(Drop)]
pub struct Memory {
    bytes: Vec<u8>,
    calls: Vec<MemoryCall>,
    failures: u64,
}

impl Model for Memory {
    ghost Value = { MemoryView };

    ghost view = { λ m. record { calls = m.calls.items; failures = m.failures } };

    ghost invariant = { λ m. m.bytes.items ≡ (replayed_calls m.calls.items).bytes };
}

impl Memory {
    /// An empty disk, on which nothing has been called. Takes no memory yet.
    pub fn new(alloc: Global) -> Memory
        ensures { result ≡ record { calls = []; failures = 0 } }
    {
        Memory {
            bytes: Vec::new(alloc),
            calls: Vec::new(alloc),
            failures: 0,
        }
    }

    /// The bytes that a read gives.
    pub fn bytes(&self) -> &[u8]
        ensures { result.now ≡ (replayed_calls self.now.calls).bytes }
    {
        &self.bytes
    }

    /// The writes and syncs that were done, in order.
    pub fn calls(&self) -> &[MemoryCall]
        ensures { result.now ≡ self.now.calls }
    {
        &self.calls
    }
}

impl Disk for Memory {
    ghost is_modelled = { ⊤ };

    ghost seen = { λ disk. (replayed_calls disk.calls).bytes };

    ghost story = { λ disk. (replayed_calls disk.calls).story };

    ghost failed = { λ disk. disk.failures };

    ghost read_gives = { λ disk _. replay_may_leave disk.calls };

    fn len(&mut self) -> Result<u64, Refusal>
        ensures value { IfOk result (λ n. n ≡ length (replayed_calls self.old.calls).bytes) }
        ensures calls { self.new.calls ≡ self.old.calls }
        ensures cause { Counts result self.old.failures self.new.failures }
        ensures succeeds { self.old.failures < 2 ^ 64 - 1 → IsOk result }
    {
        usable(self.failures)?;
        Ok(self.bytes.len() as u64)
    }

    /// Fails where there are fewer bytes, and only there.
    fn read_at(&mut self, at: u64, into: &mut [u8]) -> Result<(), Refusal>
        ensures size { length into.new ≡ length into.old }
        ensures within { OnOk result (at + length into.old ≤ length (replayed_calls self.old.calls).bytes) }
        ensures bytes { OnOk result (into.new
            ≡ take (length into.old) (drop at (replayed_calls self.old.calls).bytes)) }
        ensures calls { self.new.calls ≡ self.old.calls }
        ensures cause { Counts result self.old.failures self.new.failures }
        ensures succeeds { at + length into.old ≤ length (replayed_calls self.old.calls).bytes
            → self.old.failures < 2 ^ 64 - 1 → IsOk result }
    {
        usable(self.failures)?;
        let answer = copy(&self.bytes, at, into);
        counted(&mut self.failures, answer)
    }

    fn write_at(&mut self, at: u64, bytes: &[u8]) -> Result<(), Refusal>
        requires { at ≤ length (replayed_calls self.old.calls).bytes }
        ensures calls { Records result (IsWriteOf at bytes.now) self.old.calls self.new.calls }
        ensures bytes { OnOk result ((replayed_calls self.new.calls).bytes
            ≡ written (replayed_calls self.old.calls).bytes at bytes.now) }
        ensures outside { Torn at (length bytes.now) (replayed_calls self.old.calls).bytes
            (replayed_calls self.new.calls).bytes }
        ensures story { WriteLeft result at (length bytes.now) (replayed_calls self.old.calls).story
            (replayed_calls self.new.calls).story }
        ensures fits { OnOk result (at + length bytes.now < 2 ^ 63) }
        ensures cause { Counts result self.old.failures self.new.failures }
    {
        usable(self.failures)?;
        let answer = write(&mut self.bytes, &mut self.calls, at, bytes);
        counted(&mut self.failures, answer)
    }

    fn sync(&mut self) -> Result<(), Refusal>
        ensures calls { Records result (λ call. call ≡ Sync) self.old.calls self.new.calls }
        ensures cause { Counts result self.old.failures self.new.failures }
    {
        usable(self.failures)?;
        let answer = self.calls.push(MemoryCall::Sync);
        counted(&mut self.failures, answer)
    }

    fn failures(&self) -> u64 {
        self.failures
    }
}

// Fills `into` from this place on, where there are as many bytes.
fn copy(bytes: &[u8], at: u64, into: &mut [u8]) -> Result<(), AllocError>
    ensures size { length into.new ≡ length into.old }
    ensures within { OnOk result (at + length into.old ≤ length bytes.now) }
    ensures bytes { OnOk result (into.new ≡ take (length into.old) (drop at bytes.now)) }
    ensures succeeds { at + length into.old ≤ length bytes.now → IsOk result }
{
    let at = at as usize;
    if at > bytes.len() || into.len() > bytes.len() - at {
        return Err(AllocError);
    }
    into.copy_from_slice(&bytes[at..at + into.len()]);
    Ok(())
}

// A write of these bytes, to be recorded.
fn recorded(alloc: Global, at: u64, bytes: &[u8]) -> Result<MemoryCall, AllocError>
    ensures { IfOk result (λ call. IsWriteOf at bytes.now call) }
{
    Ok(MemoryCall::Write {
        at,
        bytes: Vec::from_slice(alloc, bytes)?,
    })
}

// Writes and records it; without memory for both, all stays as it was.
fn write(
    file: &mut Vec<u8>,
    calls: &mut Vec<MemoryCall>,
    at: u64,
    bytes: &[u8],
) -> Result<(), AllocError>
    requires { at ≤ length file.old.items }
    ensures bytes { OnOk result (file.new.items ≡ written file.old.items at bytes.now) }
    ensures call { OnOk result ((call : MemoryCall) × (calls.new.items ≡ calls.old.items ++ call ∷ [])
        × IsWriteOf at bytes.now call) }
    ensures fits { OnOk result (at + length bytes.now < 2 ^ 63) }
    ensures err_bytes { OnErr result (file.new.items ≡ file.old.items) }
    ensures err_calls { OnErr result (calls.new.items ≡ calls.old.items) }
{
    if !fits(at, bytes) {
        return Err(AllocError);
    }
    let call = recorded(*file.allocator(), at, bytes)?;
    calls.reserve(1)?;
    overwrite(file, at as usize, bytes)?;
    calls.push(call)?;
    Ok(())
}

// Writes in place; without memory for the longer bytes, they stay as they were.
fn overwrite(file: &mut Vec<u8>, at: usize, bytes: &[u8]) -> Result<(), AllocError>
    requires { at ≤ length file.old.items }
    ensures ok { OnOk result (file.new.items ≡ written file.old.items at bytes.now) }
    ensures err { OnErr result (file.new.items ≡ file.old.items) }
{
    if bytes.len() <= file.len() - at {
        file[at..at + bytes.len()].copy_from_slice(bytes);
        return Ok(());
    }
    file.reserve(bytes.len())?;
    file.truncate(at);
    file.extend_from_slice(bytes)
}
