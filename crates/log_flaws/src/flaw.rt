//! What is wrong with a log file.

ghost use Rattle.std.specs.Prelude.{◌≡◌, IfOk, string_bytes};
ghost use Rattle.log_flaws.specs.Texts.{flaw_line, header_line};
ghost use Rattle.log_flaws.specs.declared.flaw.FileFlaw.TheVariants.{NewerVersion, TooShort, EndsInside, NoVoid};

use crate::field::HeaderField;
use crate::voids::VoidFlaw;
use std::alloc::{AllocError, Global};

/// What keeps bytes from being the log file that was asked for: the first such thing in them. Bytes are counted from 0.
#[derive(Clone, Copy, Debug, PartialEq, Eq)]
pub enum FileFlaw {
    /// Behind the format's name stands this version, which is above the one that is written today.
    NewerVersion {
        version: u64,
    },
    /// There are only so many bytes, and a header has 48.
    TooShort {
        length: u64,
    },
    /// The bytes begin with no header of a log file.
    NoHeader,
    /// In this field of its header, which was asked to have one number, another was found.
    OtherHeader {
        field: HeaderField,
        found: u64,
        asked: u64,
    },
    /// The bytes end at this one, where a gate is to stand.
    NoGate {
        at: u64,
    },
    /// The bytes, so many, end inside the body that begins at this one, or before its gate: which would end there.
    EndsInside {
        length: u64,
        at: u64,
        end: Option<u64>,
    },
    /// Behind an open gate, what begins at this byte is no whole body that may follow.
    NoBody {
        at: u64,
    },
    /// The same, and it begins as a void body, in which this is wrong.
    NoVoid {
        at: u64,
        why: VoidFlaw,
    },
}

impl FileFlaw {
    ghost use Rattle.std.specs.Prelude.{◌≡◌, IfOk, string_bytes};
    ghost use Rattle.log_flaws.specs.Fronts.{flaw_in};
    ghost use Rattle.log_flaws.specs.Texts.{flaw_line};

    /// The flaw of a file of so many bytes, in front of which stand bytes with this one that have its text.
    pub fn in_file_of(self, size: u64) -> FileFlaw
        ensures { result ≡ flaw_in size self }
    {
        match self {
            FileFlaw::EndsInside { at, end, .. } => FileFlaw::EndsInside {
                length: size,
                at,
                end,
            },
            flaw => flaw,
        }
    }

    /// What is told of the file of this path that has the flaw: one line, without a line feed.
    pub fn told_of(&self, alloc: Global, path: &str) -> Result<String, AllocError>
        ensures { IfOk result (λ line. string_bytes line ≡ flaw_line path.now self.now) }
    {
        match *self {
            FileFlaw::NewerVersion { version } => newer_told(alloc, path, version),
            FileFlaw::TooShort { length } => short_told(alloc, path, length),
            FileFlaw::NoHeader => {
                format!(in alloc; "{path}: bytes 0 to 47 are no header of a log file")
            }
            FileFlaw::OtherHeader {
                field,
                found,
                asked,
            } => header_told(alloc, path, field, found, asked),
            FileFlaw::NoGate { at } => {
                format!(in alloc; "{path}: it ends at byte {at}, where a gate is to stand")
            }
            FileFlaw::EndsInside { length, at, end } => ends_told(alloc, path, length, at, end),
            FileFlaw::NoBody { at } => {
                format!(in alloc; "{path}: the body at byte {at} isn't one that may stand there")
            }
            FileFlaw::NoVoid { at, why } => void_told(alloc, path, at, why),
        }
    }
}

/// What is told of a file of a version that isn't known.
fn newer_told(alloc: Global, path: &str, version: u64) -> Result<String, AllocError>
    ensures { IfOk result (λ line. string_bytes line ≡ flaw_line path.now (NewerVersion version)) }
{
    format!(in alloc; "{path}: it is of version {version}, which this program doesn't know")
}

/// What is told of a file of so many bytes, which are fewer than a header has.
fn short_told(alloc: Global, path: &str, length: u64) -> Result<String, AllocError>
    ensures { IfOk result (λ line. string_bytes line ≡ flaw_line path.now (TooShort length)) }
{
    if length == 0 {
        return format!(in alloc; "{path}: it is empty");
    }
    format!(in alloc; "{path}: it has {length} bytes, and a header has 48")
}

/// What is told of a file in whose header a field is found to be another number than the one that is asked for.
fn header_told(
    alloc: Global,
    path: &str,
    field: HeaderField,
    found: u64,
    asked: u64,
) -> Result<String, AllocError>
    ensures { IfOk result (λ line. string_bytes line ≡ header_line path.now field found asked) }
{
    match field {
        HeaderField::Version => {
            format!(in alloc; "{path}: it is of version {found}, and log-0 is of {asked}")
        }
        HeaderField::Logger => format!(in alloc; "{path} is the file of logger {found}"),
        _ => {
            let option = field.name();
            format!(in alloc; "{option} {asked}, but {path} is of {found}")
        }
    }
}

/// What is told of a file of so many bytes that ends inside a body.
fn ends_told(
    alloc: Global,
    path: &str,
    length: u64,
    at: u64,
    end: Option<u64>,
) -> Result<String, AllocError>
    ensures { IfOk result (λ line. string_bytes line ≡ flaw_line path.now (EndsInside length at end)) }
{
    match end {
        None => format!(in alloc; "{path}: it ends at byte {length}, inside the body at byte {at}"),
        Some(end) => format!(in alloc;
            "{path}: it ends at byte {length}, inside the body at byte {at}, which would end at byte {end}"
        ),
    }
}

/// What is told of a file with a void body that may not stand where it does.
fn void_told(alloc: Global, path: &str, at: u64, why: VoidFlaw) -> Result<String, AllocError>
    ensures { IfOk result (λ line. string_bytes line ≡ flaw_line path.now (NoVoid at why)) }
{
    let why = why.told();
    format!(in alloc; "{path}: the void body at byte {at} isn't one that may stand there: {why}")
}
