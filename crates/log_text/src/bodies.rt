//! Reading a body: its bytes first, and then its rules.
ghost use Rattle.std.specs.Prelude.{◌≡◌, ◌≢◌, ℕ, List, IfOk, IfErr, IsErrOf};
ghost use Rattle.money.specs.declared.refusal.Refusal.TheVariants.{OutOfMemory, Damaged};
ghost use Rattle.log_text.specs.Bodies.{BodyView, body_of};
ghost use Rattle.log_text.specs.File.{IsBody};
ghost use Rattle.log_text.specs.declared.last.Last.{Last};

use crate::body::Body;
use crate::last::Last;
use crate::reading_entries::body_from;
use crate::rules::body_after;
use log_header::Header;
use money::Refusal;
use std::alloc::Global;

/// The body that the bytes begin with, where it may follow in a file of this header that stands there (`last`), with
/// where the file stands behind it, and the bytes behind it: the first of them is to be the next gate. Costs a pass
/// over the body.
///
/// Refuses by `Damaged` only where the bytes begin with no such body, and else for memory.
pub fn read_body<'a>(
    alloc: Global,
    header: &Header,
    last: Last,
    bytes: &'a [u8],
) -> Result<(Body, Last, &'a [u8]), Refusal>
    ensures found { IfOk result (λ x. IsBody header.now last (body_of x.0) x.1 x.2.now bytes.now) }
    ensures damaged { IsErrOf result Damaged → (body : BodyView) (now : Last) (rest : List ℕ)
        → IsBody header.now last body now rest bytes.now → ⊥ }
    ensures others { IfErr result (λ refusal. (refusal ≢ OutOfMemory) → refusal ≡ Damaged) }
{
    // Who reads a field of a header knows its rules: that `Damaged` is right rests on them.
    let _loggers = header.loggers;
    let (body, rest) = body_from(alloc, bytes)?;
    match body_after(header, last, &body) {
        Some(now) => Ok((body, now, rest)),
        None => Err(Refusal::Damaged),
    }
}
