//! Writing an entry of the book's history as an entry of a log file, with no list of its writes in between.
ghost use Rattle.std.specs.Prelude.{◌≡◌, ◌++◌, ◌<◌, ◌≤◌, ◌+◌, length, flat_map, map, ℕ, OnOk, Option, Some, List, All};
ghost use Rattle.std.specs.List.{filter};
ghost use Rattle.cells.specs.Records.{IsNarrow};
ghost use Rattle.customer_data.specs.Text.{IsData};
ghost use Rattle.customer_data.specs.Words.{data_words};
ghost use Rattle.encoding.specs.Puts.{IsRow};
ghost use Rattle.tables.specs.Records.{first_number, narrow_count, record_count};
ghost use Rattle.tables.specs.declared.records.Table.TheVariants as table;
ghost use Rattle.readset.specs.Writes.{added, as_written, value_for};
ghost use Rattle.tables.specs.declared.limits.TheConstants.{MAX_WRITES};
ghost use Rattle.log_text.specs.Writes.{write_text};
ghost use Rattle.log_text.specs.Entries.{entry_text};
ghost use Rattle.book.specs.Loggable.{IsLoggable};
ghost use Rattle.log_entries.specs.Logged.{logged_entry, history_write, write_at, writes_of};
ghost use Rattle.log_entries.specs.Logged.{is_before_history, is_behind_history};

use crate::history::history_write;
use book::Entry;
use customer_data::{DataWords, text_of, unpack};
use log_text::{Value, Write, put_front, put_text, put_write};
use money::Payload;
use readset::WriteList;
use std::alloc::AllocError;
use tables::{History, Scale, Table, locate};

/// Appends an entry of the history as an entry of a log file.
///
/// # Errors
///
/// Want of memory: the bytes may then have a part of the entry at their end.
pub fn put_entry(out: &mut Vec<u8>, scale: &Scale, entry: &Entry) -> Result<(), AllocError>
    requires { IsLoggable scale.now entry.now }
    ensures { OnOk result (out.new.items ≡ out.old.items ++ entry_text (logged_entry scale.now entry.now)) }
{
    put_front(
        out,
        u64::from(entry.number),
        entry.tid.word(),
        entry.terminal,
        count(&entry.writes),
    )?;
    put_writes(out, scale, &entry.writes)
}

/// How many writes an entry has.
fn count(writes: &WriteList) -> u16
    requires { length writes.now.values ≤ MAX_WRITES }
    ensures { result ≡ length writes.now.values + length (added writes.now.history_row) }
{
    let (values, texts) = writes.parts();
    let records = (values.len() + texts.len()) as u16;
    match writes.history_row() {
        None => records,
        Some(_) => records + 1,
    }
}

/// Appends what was written: the records before HISTORY, its row, and the records behind it, the texts at the end.
fn put_writes(out: &mut Vec<u8>, scale: &Scale, writes: &WriteList) -> Result<(), AllocError>
    requires records { (n : ℕ) (value : Option (List ℕ)) → value_for writes.now n ≡ Some value
        → n < record_count scale.now }
    requires narrow { (n : ℕ) (value : Option (List ℕ)) → value_for writes.now n ≡ Some value
        → n < narrow_count scale.now → IsNarrow value }
    requires texts { (n : ℕ) (value : Option (List ℕ)) → value_for writes.now n ≡ Some value
        → narrow_count scale.now ≤ n → IsRow data_words IsData value }
    ensures { OnOk result (out.new.items ≡ out.old.items ++ flat_map write_text (writes_of scale.now writes.now)) }
{
    let (values, texts) = writes.parts();
    // HISTORY has no records, so NEW-ORDER's first stands right behind its place.
    let behind = Table::NewOrder.first(scale);
    put_before(out, scale, behind, values)?;
    put_row(out, writes.history_row())?;
    put_behind(out, scale, behind, values)?;
    put_texts(out, scale, texts)
}

/// Appends the row that HISTORY got, if there is one.
fn put_row(out: &mut Vec<u8>, row: Option<History>) -> Result<(), AllocError>
    ensures { OnOk result (out.new.items ≡ out.old.items ++ flat_map write_text (map history_write (added row))) }
{
    match row {
        None => Ok(()),
        Some(row) => put_write(out, &history_write(&row)),
    }
}

/// Appends what one narrow record holds.
fn put_value(
    out: &mut Vec<u8>,
    scale: &Scale,
    number: u32,
    words: Option<Payload>,
) -> Result<(), AllocError>
    requires { number < narrow_count scale.now }
    ensures { OnOk result (out.new.items ≡ out.old.items ++ write_text (write_at scale.now (number, words))) }
{
    let (table, place) = locate(scale, number);
    let value = match words {
        Some(words) => Value::Columns(words),
        None => Value::Absent,
    };
    put_write(
        out,
        &Write {
            table,
            place,
            value,
        },
    )
}

/// Appends the text that a record of C_DATA holds. It is unpacked on the stack.
fn put_text_of(
    out: &mut Vec<u8>,
    scale: &Scale,
    number: u32,
    words: &DataWords,
) -> Result<(), AllocError>
    requires wide { narrow_count scale.now ≤ number }
    requires below { number < record_count scale.now }
    requires text { IsRow data_words IsData (Some words.now) }
    ensures { OnOk result (out.new.items
        ≡ out.old.items ++ write_text (write_at scale.now (number, Some words.now))) }
{
    let (_table, place) = locate(scale, number);
    let bytes = unpack(words);
    put_text(out, place, text_of(&bytes))
}

/// Appends the texts that records of C_DATA hold.
fn put_texts(out: &mut Vec<u8>, scale: &Scale, texts: &[(u32, DataWords)]) -> Result<(), AllocError>
    requires wide { All (λ e. narrow_count scale.now ≤ e.0) texts.now }
    requires below { All (λ e. e.0 < record_count scale.now) texts.now }
    requires texts { All (λ e. IsRow data_words IsData (Some e.1)) texts.now }
    ensures { OnOk result (out.new.items ≡ out.old.items
        ++ flat_map write_text (map (write_at scale.now) (map as_written texts.now))) }
{
    for (number, words) in texts {
        put_text_of(out, scale, *number, words)?;
    }
    Ok(())
}

/// Appends what the records before HISTORY hold.
fn put_before(
    out: &mut Vec<u8>,
    scale: &Scale,
    behind: u32,
    values: &[(u32, Option<Payload>)],
) -> Result<(), AllocError>
    requires behind { behind ≡ first_number scale.now table.NewOrder }
    requires numbers { All (λ e. e.0 < narrow_count scale.now) values.now }
    ensures { OnOk result (out.new.items ≡ out.old.items
        ++ flat_map write_text (map (write_at scale.now) (filter (is_before_history scale.now) values.now))) }
{
    for (number, words) in values {
        if *number < behind {
            put_value(out, scale, *number, *words)?;
        }
    }
    Ok(())
}

/// Appends what the records behind HISTORY hold.
fn put_behind(
    out: &mut Vec<u8>,
    scale: &Scale,
    behind: u32,
    values: &[(u32, Option<Payload>)],
) -> Result<(), AllocError>
    requires behind { behind ≡ first_number scale.now table.NewOrder }
    requires numbers { All (λ e. e.0 < narrow_count scale.now) values.now }
    ensures { OnOk result (out.new.items ≡ out.old.items
        ++ flat_map write_text (map (write_at scale.now) (filter (is_behind_history scale.now) values.now))) }
{
    for (number, words) in values {
        if *number >= behind {
            put_value(out, scale, *number, *words)?;
        }
    }
    Ok(())
}
