//! What disks share: their count of failures, and how far a write may reach.
ghost use Rattle.std.specs.Prelude.{◌≡◌, ◌+◌, ◌-◌, ◌^◌, ◌<◌, ◌↔◌, length, IsTrue, IsOk, IfOk};
ghost use Rattle.log_disk.specs.Calls.{Counts};

use money::Refusal;

// No write ends here or beyond: a file's length is below this.
const MAX_LENGTH: u64 = 1 << 63;

/// Whether a write of these bytes at this place ends below 2^63.
pub(crate) fn fits(at: u64, bytes: &[u8]) -> bool
    ensures { IsTrue result ↔ (at + length bytes.now < 2 ^ 63) }
{
    at < MAX_LENGTH && (bytes.len() as u64) < MAX_LENGTH - at
}

/// Refuses where so many calls have failed that no more can be counted.
pub(crate) fn usable(failures: u64) -> Result<(), Refusal>
    ensures { Counts result failures failures }
{
    if failures == u64::MAX {
        return Err(Refusal::Device);
    }
    Ok(())
}

/// The answer of a device, as one of a disk that counts its failures.
pub(crate) fn counted<T: Drop, E: Drop>(
    failures: &mut u64,
    answer: Result<T, E>,
) -> Result<T, Refusal>
    requires { failures.old < 2 ^ 64 - 1 }
    ensures ok { IfOk answer (λ value. result ≡ Ok value) }
    ensures err { IsOk result → IsOk answer }
    ensures cause { Counts result failures.old failures.new }
{
    match answer {
        Ok(value) => Ok(value),
        Err(_) => {
            *failures += 1;
            Err(Refusal::Device)
        }
    }
}
