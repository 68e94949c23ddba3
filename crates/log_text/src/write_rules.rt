//! Which writes an entry may have.
ghost use Rattle.std.specs.Prelude.{◌≡◌, ◌≤◌, ◌<◌, ◌+◌, ◌*◌, ◌^◌, ◌&&◌, nat_le, not};
ghost use Rattle.std.specs.List.{list_all, count_by};
ghost use Rattle.tables.specs.Records.{table_number};
ghost use Rattle.log_text.specs.Columns.{has_text as holds_text};
ghost use Rattle.log_text.specs.Writes.{are_of_version, are_writes, is_data, is_history, is_value, is_write, places};
ghost use Rattle.log_text.specs.Writes.{rank, rise_from};

use crate::columns::{are_columns, has_text};
use crate::write::{Value, Write};
use customer_data::{MAX_DATA, MIN_DATA};
use log_header::VERSION;
use tables::limits::MAX_WRITES;
use tables::{Scale, Table};

fn places(scale: &Scale, table: Table) -> u32
    ensures { result ≡ places scale.now table }
{
    match table {
        Table::History => 1,
        other => other.size(scale),
    }
}

/// Whether each byte is a printable character of ASCII.
fn are_printable(text: &[u8]) -> bool
    ensures { result ≡ list_all (λ b. nat_le 32 b && nat_le b 126) text.now }
{
    for byte in text {
        if !(b' '..=b'~').contains(byte) {
            return false;
        }
    }
    true
}

fn is_data(text: &[u8]) -> bool
    ensures { result ≡ is_data text.now }
{
    MIN_DATA <= text.len() && text.len() <= MAX_DATA && are_printable(text)
}

fn is_value(scale: &Scale, table: Table, value: &Value) -> bool
    ensures { result ≡ is_value scale.now table value.now }
{
    match value {
        Value::Absent => matches!(table, Table::NewOrder),
        Value::Columns(words) => !has_text(table) && are_columns(scale, table, words),
        Value::Text(text) => has_text(table) && is_data(text.as_bytes()),
    }
}

fn is_write(scale: &Scale, write: &Write) -> bool
    ensures { result ≡ is_write scale.now write.now }
{
    write.place < places(scale, write.table) && is_value(scale, write.table, &write.value)
}

fn are_each(scale: &Scale, writes: &[Write]) -> bool
    ensures { result ≡ list_all (is_write scale.now) writes.now }
{
    for write in writes {
        if !is_write(scale, write) {
            return false;
        }
    }
    true
}

/// Orders records by table, and those of a table by place.
fn rank(table: Table, place: u32) -> u64
    ensures rank { result ≡ table_number table * 2 ^ 32 + place }
    ensures limit { result < 2 ^ 36 }
{
    u64::from(table.number()) * (1 << 32) + u64::from(place)
}

fn do_rise(writes: &[Write]) -> bool
    ensures { result ≡ rise_from 0 writes.now }
{
    let mut least = 0;
    for write in writes {
        let rank = rank(write.table, write.place);
        if rank < least {
            return false;
        }
        least = rank + 1;
    }
    true
}

/// How many of the writes are not HISTORY's.
fn records(writes: &[Write]) -> usize
    ensures { result ≡ count_by (λ w. not (is_history w)) writes.now }
{
    let mut records = 0;
    for write in writes {
        if !matches!(write.table, Table::History) {
            records += 1;
        }
    }
    records
}

/// Whether an entry may have these writes.
pub(crate) fn are_writes(scale: &Scale, writes: &[Write]) -> bool
    ensures { result ≡ are_writes scale.now writes.now }
{
    are_each(scale, writes) && do_rise(writes) && records(writes) <= MAX_WRITES
}

/// Whether they may stand in a file of this version.
pub(crate) fn are_of_version(version: u32, writes: &[Write]) -> bool
    ensures { result ≡ are_of_version version writes.now }
{
    version == VERSION || have_no_text(writes)
}

/// Whether none is of a record that holds a text.
fn have_no_text(writes: &[Write]) -> bool
    ensures { result ≡ list_all (λ w. not (holds_text w.table)) writes.now }
{
    for write in writes {
        if has_text(write.table) {
            return false;
        }
    }
    true
}
