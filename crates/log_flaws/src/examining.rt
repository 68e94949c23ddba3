//! Reading a log file to its first flaw.
ghost use Rattle.std.specs.Prelude.{◌≡◌, ◌+◌, ◌++◌, ◌<◌, ◌^◌, List, ℕ, length, IfOk, IfErr};
ghost use Rattle.money.specs.declared.refusal.Refusal.TheVariants.{OutOfMemory};
ghost use Rattle.log_header.specs.Header.{HeaderView, IsHeader, header_text};
ghost use Rattle.log_codec.specs.Numbers.{number_at};
ghost use Rattle.log_flaws.specs.Voids.{void_flaw};
ghost use Rattle.log_flaws.specs.Flaws.{HasFlaw, IsExamined, IsHeadless, body_flaw, end_of, length_flaw};

use crate::field::first_difference;
use crate::flaw::FileFlaw;
use crate::versions::newer_version;
use crate::voids::void_flaw;
use log_codec::u64_at;
use log_header::{Header, read_header};
use log_text::{Body, Last, read_body};
use money::Refusal;
use std::alloc::{AllocError, Global};

/// How many bytes a header has.
const HEADER_BYTES: usize = 48;

/// The byte of an open gate: a body stands behind it.
const OPEN: u8 = 1;

/// What bytes are found to be.
#[derive(Drop)]
pub enum Examined {
    /// The log file that was asked for, with these bodies.
    Whole(Vec<Body>),
    /// None, for this flaw.
    Flawed(FileFlaw),
}

/// Whether bytes are a log file with this header: its bodies, or the first flaw. As `log_text::read_file` reads them,
/// and as dear. `OutOfMemory` is the only refusal.
pub fn examine(alloc: Global, asked: &Header, file: &[u8]) -> Result<Examined, Refusal>
    ensures examined { IfOk result (IsExamined file.now asked.now) }
    ensures only_memory { IfErr result (λ refusal. refusal ≡ OutOfMemory) }
{
    let Some((header, bytes)) = read_header(file) else {
        return Ok(Examined::Flawed(headless(file)));
    };
    if let Some(field) = first_difference(&header, asked) {
        return Ok(Examined::Flawed(FileFlaw::OtherHeader {
            field,
            found: field.of(&header),
            asked: field.of(asked),
        }));
    }
    Ok(bodies_examined(alloc, asked, file, bytes)?)
}

/// The flaw of bytes that begin with no header, whichever is asked for.
pub fn headless(file: &[u8]) -> FileFlaw
    requires { IsHeadless file.now }
    ensures flaw { (asked : HeaderView) → HasFlaw file.now asked result }
{
    if let Some(version) = newer_version(file) {
        return FileFlaw::NewerVersion { version };
    }
    if file.len() < HEADER_BYTES {
        FileFlaw::TooShort {
            length: file.len() as u64,
        }
    } else {
        FileFlaw::NoHeader
    }
}

/// What is told of a body at this place that is none which may stand there, where the file stands there and these bytes
/// begin, which are its last.
fn body_flaw(last: Last, text: &[u8], at: u64) -> FileFlaw
    requires { at + length text.now < 2 ^ 64 }
    ensures { result ≡ body_flaw at text.now (void_flaw last text.now) }
{
    match void_flaw(last, text) {
        None => length_flaw(text, at),
        Some(why) => FileFlaw::NoVoid { at, why },
    }
}

/// What is told of such a body by its length, where it is no void one.
fn length_flaw(text: &[u8], at: u64) -> FileFlaw
    requires { at + length text.now < 2 ^ 64 }
    ensures { result ≡ length_flaw at (length text.now) (number_at 8 text.now) }
{
    let length = at + text.len() as u64;
    match u64_at(text) {
        None => FileFlaw::EndsInside {
            length,
            at,
            end: None,
        },
        Some((size, rest)) if (rest.len() as u64) < size => FileFlaw::EndsInside {
            length,
            at,
            end: end_of(at, size),
        },
        Some(_) => FileFlaw::NoBody { at },
    }
}

/// The place behind a body of this length at this place, and behind its gate, where that place has eight bytes.
fn end_of(at: u64, size: u64) -> Option<u64>
    ensures { result ≡ end_of at size }
{
    at.checked_add(8)?.checked_add(size)
}

/// What a file is found to be whose first bytes are the header that was asked for, and which has these bytes behind it.
fn bodies_examined(
    alloc: Global,
    header: &Header,
    file: &[u8],
    bytes: &[u8],
) -> Result<Examined, AllocError>
    requires header { IsHeader header.now }
    requires text { file.now ≡ header_text header.now ++ bytes.now }
    ensures { IfOk result (IsExamined file.now header.now) }
{
    let mut bodies = Vec::new(alloc);
    let mut last = Last::start();
    let mut rest = bytes;
    'bodies: loop {
        let gate = (file.len() - rest.len()) as u64;
        let Some((byte, text)) = rest.split_first() else {
            return Ok(Examined::Flawed(FileFlaw::NoGate { at: gate }));
        };
        if *byte != OPEN {
            return Ok(Examined::Whole(bodies));
        }
        let (body, now, behind) = match read_body(alloc, header, last, text) {
            Ok(read) => read,
            Err(Refusal::Damaged) => {
                return Ok(Examined::Flawed(body_flaw(last, text, gate + 1)));
            }
            Err(_) => return Err(AllocError),
        };
        bodies.push(body)?;
        last = now;
        rest = behind;
    }
}
