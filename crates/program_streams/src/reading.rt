//! Reading from a stream.

ghost use Rattle.std.specs.Prelude.{◌≡◌, ◌≤◌, ◌<◌, length, take, IfErr, IfOk};
ghost use Rattle.std.specs.Io.KnownBytes.{Consumes, IsAtEnd};
ghost use Rattle.money.specs.declared.refusal.Refusal.TheVariants.{Device};

use money::Refusal;
use std::io::{ErrorKind, Read};

/// Reads what comes next. A read that was interrupted has taken nothing, and is tried again.
pub fn read_piece<R: Read>(reader: &mut R, piece: &mut [u8]) -> Result<usize, Refusal>
    ensures within { IfOk result (λ count. count ≤ length piece.new) }
    ensures bytes { IfOk result
        (λ count. Consumes (R.remaining reader.old) (R.remaining reader.new) (take count piece.new)) }
    ensures end { IfOk result (λ count. count ≡ 0 → 0 < length piece.new
        → IsAtEnd (R.remaining reader.new)) }
    ensures device { IfErr result (λ refusal. refusal ≡ Device) }
{
    for _ in 0..u64::MAX {
        match reader.read(piece) {
            Ok(count) => return Ok(count),
            Err(error) if error.kind() == ErrorKind::Interrupted => continue,
            Err(_) => return Err(Refusal::Device),
        }
    }
    Err(Refusal::Device)
}
