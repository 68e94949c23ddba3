//! Writing entries and bodies.
ghost use Rattle.std.specs.Prelude.{◌≡◌, [], ◌∷◌, ◌++◌, ◌≤◌, ◌<◌, ◌^◌, ◌+◌, length, flat_map, map, ℕ, List, OnOk};
ghost use Rattle.std.specs.List.{All};
ghost use Rattle.log_codec.specs.Numbers.{number};
ghost use Rattle.log_text.specs.Columns.{width};
ghost use Rattle.log_text.specs.Writes.{value_text, write_text};
ghost use Rattle.log_text.specs.declared.write.Value.TheVariants as value;
ghost use Rattle.tables.specs.declared.records.Table.TheVariants as table;
ghost use Rattle.log_text.specs.Entries.{entry_text, front_text, logged};
ghost use Rattle.log_text.specs.Bodies.{Entries, HasFewWrites, Void, body_of, body_text, content_text};

use crate::body::{Body, VOID_MARK};
use crate::columns::width;
use crate::entry::LoggedEntry;
use crate::write::{Value, Write};
use byteorder::{ByteOrder, LittleEndian};
use log_codec::{put_u8, put_u16, put_u32, put_u64};
use std::alloc::AllocError;
use tables::Table;

/// Appends the words of the first columns.
fn put_words(out: &mut Vec<u8>, words: &[u64]) -> Result<(), AllocError>
    ensures { OnOk result (out.new.items ≡ out.old.items ++ flat_map (number 8) words.now) }
{
    for word in words {
        put_u64(out, *word)?;
    }
    Ok(())
}

/// Appends a present text, of fewer than 65,536 bytes, behind its length.
fn put_present_text(out: &mut Vec<u8>, table: Table, text: &[u8]) -> Result<(), AllocError>
    requires { length text.now < 2 ^ 16 }
    ensures { OnOk result (out.new.items ≡ out.old.items ++ value_text table (value.Text text.now)) }
{
    put_u8(out, 1)?;
    put_u16(out, text.len() as u16)?;
    out.extend_from_slice(text)
}

fn put_value(out: &mut Vec<u8>, table: Table, value: &Value) -> Result<(), AllocError>
    ensures { OnOk result (out.new.items ≡ out.old.items ++ value_text table value.now) }
{
    match value {
        Value::Absent => put_u8(out, 0),
        Value::Columns(words) => {
            put_u8(out, 1)?;
            put_words(out, &words[..width(table)])
        }
        Value::Text(text) => put_present_text(out, table, text.as_bytes()),
    }
}

/// Appends a write.
pub fn put_write(out: &mut Vec<u8>, write: &Write) -> Result<(), AllocError>
    ensures { OnOk result (out.new.items ≡ out.old.items ++ write_text write.now) }
{
    put_u8(out, write.table.number())?;
    put_u32(out, write.place)?;
    put_value(out, write.table, &write.value)
}

/// Appends the write of a customer's text, of fewer than 65,536 bytes, which isn't copied before.
pub fn put_text(out: &mut Vec<u8>, place: u32, text: &[u8]) -> Result<(), AllocError>
    requires { length text.now < 2 ^ 16 }
    ensures { OnOk result (out.new.items ≡ out.old.items
        ++ write_text (record { table = table.CustomerData; place = place; value = value.Text text.now })) }
{
    put_u8(out, Table::CustomerData.number())?;
    put_u32(out, place)?;
    put_present_text(out, Table::CustomerData, text)
}

/// Appends an entry, which has at most 201 writes.
pub(crate) fn put_entry(out: &mut Vec<u8>, entry: &LoggedEntry) -> Result<(), AllocError>
    requires { length entry.now.writes.items < 2 ^ 16 }
    ensures { OnOk result (out.new.items ≡ out.old.items ++ entry_text (logged entry.now)) }
{
    put_front(
        out,
        entry.number,
        entry.tid,
        entry.terminal,
        entry.writes.len() as u16,
    )?;
    for write in &entry.writes {
        put_write(out, write)?;
    }
    Ok(())
}

/// Appends what an entry has in front of its writes.
pub fn put_front(
    out: &mut Vec<u8>,
    number: u64,
    tid: u64,
    terminal: u16,
    count: u16,
) -> Result<(), AllocError>
    ensures { OnOk result (out.new.items ≡ out.old.items ++ front_text number tid terminal count) }
{
    put_u64(out, number)?;
    put_u64(out, tid)?;
    put_u16(out, terminal)?;
    put_u16(out, count)
}

/// Sets the length of the body that begins there, where eight bytes are kept for it: its text goes on to the end.
pub fn set_length(bytes: &mut [u8], start: usize)
    requires { start + 8 ≤ length bytes.old }
    ensures length { length bytes.new ≡ length bytes.old }
    ensures set { (front content : List ℕ) → length front ≡ start → bytes.old ≡ front ++ (number 8 0 ++ content)
        → bytes.new ≡ front ++ (number 8 (length content + 1) ++ content) }
{
    let size = (bytes.len() - start - 8) as u64 + 1;
    let mut field = [0; 8];
    LittleEndian::write_u64(&mut field, size);
    bytes[start..start + 8].copy_from_slice(&field);
}

/// Appends a body whose entries have at most 65,535 writes each.
pub fn put_body(out: &mut Vec<u8>, body: &Body) -> Result<(), AllocError>
    requires { HasFewWrites body.now }
    ensures { OnOk result (out.new.items ≡ out.old.items ++ body_text (body_of body.now)) }
{
    let start = out.len();
    put_u64(out, 0)?;
    put_content(out, body)?;
    set_length(out.as_mut_slice(), start);
    Ok(())
}

fn put_content(out: &mut Vec<u8>, body: &Body) -> Result<(), AllocError>
    requires { HasFewWrites body.now }
    ensures { OnOk result (out.new.items ≡ out.old.items ++ content_text (body_of body.now)) }
{
    match body {
        Body::Entries(mark, entries) => put_entries(out, *mark, entries),
        Body::Void(low, high) => {
            put_u64(out, VOID_MARK)?;
            put_u64(out, *low)?;
            put_u64(out, *high)
        }
    }
}

fn put_entries(out: &mut Vec<u8>, mark: u64, entries: &[LoggedEntry]) -> Result<(), AllocError>
    requires { All (λ e. length e.writes.items < 2 ^ 16) entries.now }
    ensures { OnOk result (out.new.items ≡ out.old.items ++ content_text (Entries mark (map logged entries.now))) }
{
    put_u64(out, mark)?;
    for entry in entries {
        put_entry(out, entry)?;
    }
    Ok(())
}

/// A void body of the epochs from `low` to `high`, with a closed gate behind it. Takes no memory.
#[rattlefmt::skip]
pub fn void_text(low: u64, high: u64) -> [u8; 33]
    ensures { result ≡ body_text (Void low high) ++ 0 ∷ [] }
{
    let a = low.to_le_bytes();
    let b = high.to_le_bytes();
    [
        25, 0, 0, 0, 0, 0, 0, 0,
        255, 255, 255, 255, 255, 255, 255, 255,
        a[0], a[1], a[2], a[3], a[4], a[5], a[6], a[7],
        b[0], b[1], b[2], b[3], b[4], b[5], b[6], b[7],
        0,
    ]
}
