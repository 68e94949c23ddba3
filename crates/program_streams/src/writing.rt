//! Writing to a stream.

ghost use Rattle.std.specs.Prelude.{◌≡◌, List, ◌++◌, ℕ, IfErr, OnOk, OnErr};
ghost use Rattle.std.specs.Io.KnownBytes.{Appends};
ghost use Rattle.money.specs.declared.refusal.Refusal.TheVariants.{Device};

use money::Refusal;
use std::io::{ErrorKind, Write};

/// Writes a text and flushes it. Where that fails, a beginning of it may be written.
pub fn write_text<W: Write>(writer: &mut W, text: &[u8]) -> Result<(), Refusal>
    ensures ok { OnOk result (Appends (W.contents writer.old) (W.contents writer.new) text.now) }
    ensures err { OnErr result ((front rest : List ℕ) × (text.now ≡ front ++ rest)
        × Appends (W.contents writer.old) (W.contents writer.new) front) }
    ensures device { IfErr result (λ refusal. refusal ≡ Device) }
{
    write_whole(writer, text)?;
    writer.flush().map_err(|_| Refusal::Device)
}

/// Writes a text piece by piece, so that where a write fails it is known what the writer has taken.
fn write_whole<W: Write>(writer: &mut W, text: &[u8]) -> Result<(), Refusal>
    ensures ok { OnOk result (Appends (W.contents writer.old) (W.contents writer.new) text.now) }
    ensures err { OnErr result ((front rest : List ℕ) × (text.now ≡ front ++ rest)
        × Appends (W.contents writer.old) (W.contents writer.new) front) }
    ensures device { IfErr result (λ refusal. refusal ≡ Device) }
{
    let mut rest = text;
    for _ in 0..u64::MAX {
        if rest.is_empty() {
            return Ok(());
        }
        match writer.write(rest) {
            Ok(0) => return Err(Refusal::Device),
            Ok(count) => rest = &rest[count..],
            Err(error) if error.kind() == ErrorKind::Interrupted => continue,
            Err(_) => return Err(Refusal::Device),
        }
    }
    Err(Refusal::Device)
}
