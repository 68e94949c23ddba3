//! What a log file has of one committed transaction.
use crate::write::Write;

/// An entry of a log file.
#[derive(Drop)]
pub struct LoggedEntry {
    /// The commit number, from 1.
    pub number: u64,
    /// The TID: a word with its three status bits 0 (Silo, section 4.2).
    pub tid: u64,
    /// The terminal that asked for it, from 0 to 15.
    pub terminal: u16,
    /// Rising strictly by table and place; at most 200 beside that of HISTORY.
    pub writes: Vec<Write>,
}
