//! Reading a whole log file.
ghost use Rattle.std.specs.Prelude.{◌≡◌, ◌≢◌, List, map, IfOk, IfErr, IsErrOf};
ghost use Rattle.money.specs.declared.refusal.Refusal.TheVariants.{OutOfMemory, Damaged};
ghost use Rattle.log_header.specs.Header.{HeaderView, IsHeader};
ghost use Rattle.log_text.specs.Bodies.{BodyView, body_of};
ghost use Rattle.log_text.specs.File.{AreBodies, AreBodiesTo, IsFile, IsFileTo};

use crate::bodies::read_body;
use crate::body::Body;
use crate::last::Last;
use log_header::{Header, read_header};
use money::Refusal;
use std::alloc::Global;

/// The byte of an open gate: a body stands behind it.
const OPEN: u8 = 1;

/// The header of a log file, and its bodies: those in front of its first closed gate. What stands behind that is left
/// aside. One pass over the file; nothing is kept of it that its bytes don't show.
///
/// Refuses by `Damaged` exactly where the bytes are no log file, unless it refuses for memory.
pub fn read_file(alloc: Global, file: &[u8]) -> Result<(Header, Vec<Body>), Refusal>
    ensures found { IfOk result (λ x. IsFile file.now x.0 (map body_of x.1.items)) }
    ensures damaged { IsErrOf result Damaged → (h : HeaderView) (bodies : List BodyView)
        → IsFile file.now h bodies → ⊥ }
    ensures others { IfErr result (λ refusal. (refusal ≢ OutOfMemory) → refusal ≡ Damaged) }
{
    let (header, bodies, _, _) = read_to_end(alloc, file)?;
    Ok((header, bodies))
}

/// The same, with where the file stands behind its bodies, and the place of the gate that ends its text.
pub fn read_to_end(alloc: Global, file: &[u8]) -> Result<(Header, Vec<Body>, Last, usize), Refusal>
    ensures found { IfOk result (λ x. IsFileTo file.now x.0 (map body_of x.1.items) x.2 x.3) }
    ensures damaged { IsErrOf result Damaged → (h : HeaderView) (bodies : List BodyView)
        → IsFile file.now h bodies → ⊥ }
    ensures others { IfErr result (λ refusal. (refusal ≢ OutOfMemory) → refusal ≡ Damaged) }
{
    let Some((header, bytes)) = read_header(file) else {
        return Err(Refusal::Damaged);
    };
    let (bodies, last, left) = read_bodies(alloc, &header, bytes)?;
    let end = file.len() - left.len();
    Ok((header, bodies, last, end))
}

/// The bodies that bytes begin with, where the file stands behind them, and the bytes from the gate on that ends them.
fn read_bodies<'a>(
    alloc: Global,
    header: &Header,
    bytes: &'a [u8],
) -> Result<(Vec<Body>, Last, &'a [u8]), Refusal>
    requires { IsHeader header.now }
    ensures found { IfOk result (λ x. AreBodiesTo header.now (map body_of x.0.items) x.1 x.2.now bytes.now) }
    ensures damaged { IsErrOf result Damaged → (bodies : List BodyView)
        → AreBodies header.now bodies bytes.now → ⊥ }
    ensures others { IfErr result (λ refusal. (refusal ≢ OutOfMemory) → refusal ≡ Damaged) }
{
    let mut bodies = Vec::new(alloc);
    let mut last = Last::start();
    let mut rest = bytes;
    'bodies: loop {
        let Some((gate, text)) = rest.split_first() else {
            return Err(Refusal::Damaged);
        };
        if *gate != OPEN {
            return Ok((bodies, last, rest));
        }
        let (body, now, behind) = read_body(alloc, header, last, text)?;
        bodies.push(body)?;
        last = now;
        rest = behind;
    }
}
