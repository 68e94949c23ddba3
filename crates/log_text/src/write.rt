//! What an entry of a log file says of one record.
use crate::text::LoggedText;
use money::Payload;
use tables::Table;

/// What a transaction left of a record, or the row that it added to HISTORY.
#[derive(Debug, Drop)]
pub struct Write {
    pub table: Table,
    /// The record's place in its table, from 0; 0 in HISTORY.
    pub place: u32,
    pub value: Value,
}

/// What a record was left with.
#[derive(Debug, Drop)]
pub enum Value {
    /// It is absent.
    Absent,
    /// Its columns, and 0 past them.
    Columns(Payload),
    /// C_DATA, a customer's text.
    Text(LoggedText),
}
