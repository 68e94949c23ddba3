//! Reading one write: its table, its place, and what it leaves.
ghost use Rattle.std.specs.Prelude.{◌≡◌, ◌≤◌, ◌<◌, ◌^◌, length, IfSome};
ghost use Rattle.std.specs.Option.{option_map};
ghost use Rattle.log_text.specs.Columns.{has_text as holds_text, width};
ghost use Rattle.log_text.specs.Read.{Gives, present_from, table_from, text_from, value_from, words_from, write_from};

use crate::columns::{has_text, width};
use crate::text::LoggedText;
use crate::write::{Value, Write};
use byteorder::{ByteOrder, LittleEndian};
use log_codec::{u8_at, u16_at, u32_at};
use money::{PAYLOAD_WORDS, Payload, Refusal};
use std::alloc::Global;
use tables::Table;

#[tactic(auto, unfolding(crate::specs::Read::table_from, log_codec::specs::Read::chosen))]
fn table_from(bytes: &[u8]) -> Option<(Table, &[u8])>
    ensures { option_map (λ x. (x.0, x.1.now)) result ≡ table_from bytes.now }
{
    let (number, rest) = u8_at(bytes)?;
    let table = Table::of_number(number)?;
    Some((table, rest))
}

fn words_from(width: usize, bytes: &[u8]) -> Option<(Payload, &[u8])>
    requires { width ≤ 7 }
    ensures { option_map (λ x. (x.0, x.1.now)) result ≡ words_from width bytes.now }
{
    if bytes.len() < 8 * width {
        return None;
    }
    let (front, rest) = bytes.split_at(8 * width);
    let mut words = [0; PAYLOAD_WORDS];
    LittleEndian::read_u64_into(front, &mut words[..width]);
    Some((words, rest))
}

/// The text that the bytes begin with, behind its length, and the bytes behind it. No byte is copied.
#[tactic(auto, unfolding(crate::specs::Read::text_from))]
fn text_from(bytes: &[u8]) -> Option<(&[u8], &[u8])>
    ensures text { option_map (λ x. (x.0.now, x.1.now)) result ≡ text_from bytes.now }
    ensures few { IfSome result (λ x. length x.0.now < 2 ^ 16) }
{
    let (length, rest) = u16_at(bytes)?;
    let length = usize::from(length);
    if rest.len() < length {
        return None;
    }
    Some(rest.split_at(length))
}

/// What a present record holds, by which kind it is of.
#[tactic(auto, unfolding(crate::specs::Read::present_from, log_codec::specs::Read::chosen))]
fn present_from(alloc: Global, table: Table, bytes: &[u8]) -> Result<(Value, &[u8]), Refusal>
    ensures { Gives (λ x. (x.0, x.1.now)) result (present_from (holds_text table) (width table) bytes.now) }
{
    if has_text(table) {
        let (text, rest) = text_from(bytes).ok_or(Refusal::Damaged)?;
        let text = LoggedText::of(alloc, text)?;
        return Ok((Value::Text(text), rest));
    }
    let (words, rest) = words_from(width(table), bytes).ok_or(Refusal::Damaged)?;
    Ok((Value::Columns(words), rest))
}

#[tactic(auto, unfolding(crate::specs::Read::value_from, log_codec::specs::Read::both, log_codec::specs::Read::chosen))]
fn value_from(alloc: Global, table: Table, bytes: &[u8]) -> Result<(Value, &[u8]), Refusal>
    ensures { Gives (λ x. (x.0, x.1.now)) result (value_from table bytes.now) }
{
    let (kind, rest) = u8_at(bytes).ok_or(Refusal::Damaged)?;
    match kind {
        0 => Ok((Value::Absent, rest)),
        1 => present_from(alloc, table, rest),
        _ => Err(Refusal::Damaged),
    }
}

/// The write that the bytes begin with, and the bytes behind it.
#[tactic(auto, unfolding(crate::specs::Read::write_from, log_codec::specs::Read::both, log_codec::specs::Read::chosen))]
pub(crate) fn write_from(alloc: Global, bytes: &[u8]) -> Result<(Write, &[u8]), Refusal>
    ensures { Gives (λ x. (x.0, x.1.now)) result (write_from bytes.now) }
{
    let (table, rest) = table_from(bytes).ok_or(Refusal::Damaged)?;
    let (place, rest) = u32_at(rest).ok_or(Refusal::Damaged)?;
    let (value, rest) = value_from(alloc, table, rest)?;
    let write = Write {
        table,
        place,
        value,
    };
    Ok((write, rest))
}
