//! What an entry of a log file has left in a record.
ghost use Rattle.std.specs.Prelude.{◌≡◌};
ghost use Rattle.recover_newest.specs.Latest.{is_older};

use log_text::Value;

/// What an entry of a log file has left in a record, and of which commit it is.
#[derive(Debug, Drop)]
pub struct Latest {
    /// The commit's TID, without status bits.
    pub tid: u64,
    /// Its commit number, from 1.
    pub number: u64,
    /// What it left.
    pub value: Value,
}

impl Latest {
    /// Whether another write of the same record is newer: of a greater TID, or of the same and a greater commit number.
    pub(crate) fn is_older(&self, write: &Latest) -> bool
        ensures { result ≡ is_older self.now write.now }
    {
        self.tid < write.tid || self.tid == write.tid && self.number < write.number
    }
}
