//! What a call of a disk in memory is.
ghost use Rattle.std.specs.Prelude.{◌≡◌, ◌↔◌, IsTrue};
ghost use Rattle.log_disk.specs.Memory.{IsWriteOf};
ghost use Rattle.log_disk.specs.declared.memory_call.MemoryCall.TheVariants.{Sync};

use log_disk::MemoryCall;

/// Whether it is a write of these bytes at this place.
pub(crate) fn is_write_of(call: &MemoryCall, at: u64, bytes: &[u8]) -> bool
    ensures { IsTrue result ↔ IsWriteOf at bytes.now call.now }
{
    match call {
        MemoryCall::Write {
            at: place,
            bytes: own,
        } => *place == at && own.as_slice() == bytes,
        MemoryCall::Sync => false,
    }
}

/// Whether it is a sync.
pub(crate) fn is_sync(call: &MemoryCall) -> bool
    ensures { IsTrue result ↔ (call.now ≡ Sync) }
{
    matches!(call, MemoryCall::Sync)
}
