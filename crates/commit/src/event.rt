//! What may happen in the machine.
use crate::value::Value;

/// One event of the machine. Workers and records are numbered from 0.
#[derive(Clone, Copy, Debug, PartialEq, Eq)]
pub enum Event {
    /// An idle worker begins a transaction.
    Begin {
        worker: u16,
    },
    /// It reads a record, locked or not, before it locks any (phase of execution; Silo, section 4.4).
    Read {
        worker: u16,
        record: u32,
    },
    /// It locks a record, with the value that it is to write, or absent; above each that it has locked (phase 1).
    Lock {
        worker: u16,
        record: u32,
        value: Option<Value>,
    },
    /// It reads the epoch, after its last lock (the serialization point).
    ReadEpoch {
        worker: u16,
    },
    /// It validates one of its reads (phase 2), and fails where the record has another TID, isn't the latest version,
    /// or is locked by another.
    Validate {
        worker: u16,
        record: u32,
    },
    /// It takes its TID, all reads being validated, and fails where there is none.
    ChooseTid {
        worker: u16,
    },
    /// It writes one of the records that it has locked, which unlocks it (phase 3).
    Install {
        worker: u16,
        record: u32,
    },
    /// It unlocks one of them after it failed.
    Unlock {
        worker: u16,
        record: u32,
    },
    /// The epoch goes on.
    AdvanceEpoch,
}
