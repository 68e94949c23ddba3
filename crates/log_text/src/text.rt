//! Texts in log files.
ghost use Rattle.std.specs.Prelude.{◌≡◌, ◌<◌, ◌^◌, List, ℕ, length, IfOk};

use std::alloc::{AllocError, Global};
use std::marker::Model;

/// A text as it stands in a log file, of fewer than 65,536 bytes. Contracts see the list of its bytes.
#[derive(Debug, Drop)]
pub struct LoggedText {
    bytes: Vec<u8>,
}

impl Model for LoggedText {
    ghost Value = { List ℕ };

    ghost view = { λ text. text.bytes.items };

    ghost invariant = { λ text. length text.bytes.items < 2 ^ 16 };
}

impl LoggedText {
    /// A copy of fewer than 65,536 bytes. Takes memory for them, and is refused for want of it alone.
    pub fn of(alloc: Global, bytes: &[u8]) -> Result<LoggedText, AllocError>
        requires { length bytes.now < 2 ^ 16 }
        ensures { IfOk result (λ text. text ≡ bytes.now) }
    {
        let mut kept = Vec::with_capacity(alloc, bytes.len())?;
        kept.extend_from_slice(bytes)?;
        Ok(LoggedText { bytes: kept })
    }

    /// Its bytes.
    pub fn as_bytes(&self) -> &[u8]
        ensures bytes { result.now ≡ self.now }
        ensures few { length result.now < 2 ^ 16 }
    {
        self.bytes.as_slice()
    }
}
