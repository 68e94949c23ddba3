//! The text of what is wrong with a line.

ghost use Rattle.std.specs.Prelude.{◌≡◌, ℕ, List, IfOk, string_bytes};
ghost use Rattle.program_script_hints.specs.Lines.{line_on};

use crate::ranges::out_of_range;
use crate::shape::misshapen;
use money::Refusal;
use program_script_text::MAX_LINE;
use std::alloc::{AllocError, Global};
use std::str::FromStr;
use tables::Scale;

/// What is wrong with the refused line of this number, with a line feed: `line 4: W is 2: it is to be from 1 to 1`.
/// None is a line that is too long.
pub fn explanation(
    alloc: Global,
    scale: &Scale,
    line: Option<&[u8]>,
    number: u32,
    refusal: Refusal,
) -> Result<String, AllocError>
    ensures { IfOk result (λ text. (what : List ℕ) × (string_bytes text ≡ line_on number what)) }
{
    let what = match line {
        Some(bytes) => of_line(alloc, scale, bytes, refusal)?,
        None => format!(in alloc; "it is longer than {MAX_LINE} bytes")?,
    };
    format!(in alloc; "line {number}: {what}\n")
}

/// What is wrong with a line of these bytes.
fn of_line(
    alloc: Global,
    scale: &Scale,
    bytes: &[u8],
    refusal: Refusal,
) -> Result<String, AllocError> {
    let Some(text) = printable(bytes) else {
        return of_bytes(alloc, bytes);
    };
    match refusal {
        Refusal::BadInput => out_of_range(alloc, scale, text),
        Refusal::ItemNotValid { item } => {
            let items = scale.items();
            format!(in alloc; "item {item}: ITEM has 1 to {items}")
        }
        Refusal::OrdersFull => of_full_district(alloc, scale, text),
        Refusal::CommitsFull => {
            let commits = scale.commits();
            format!(in alloc; "the commits are at the commit cap, --commits {commits}")
        }
        _ => misshapen(alloc, text),
    }
}

/// The text of bytes that are all printable characters of ASCII.
fn printable(bytes: &[u8]) -> Option<&str> {
    if bytes
        .iter()
        .all(|byte| *byte == b' ' || byte.is_ascii_graphic())
    {
        str::from_utf8(bytes).ok()
    } else {
        None
    }
}

/// What is wrong with bytes that aren't.
fn of_bytes(alloc: Global, bytes: &[u8]) -> Result<String, AllocError> {
    let what = match bytes {
        [.., b'\r'] => "it ends in a carriage return",
        _ if bytes.contains(&b'\t') => "it has a tab: words are parted by one space each",
        _ => "it has a byte that is no printable character of ASCII",
    };
    String::from_str(alloc, what)
}

/// What is told of an order for whose district there is no order number left.
fn of_full_district(alloc: Global, scale: &Scale, text: &str) -> Result<String, AllocError> {
    let orders = scale.orders();
    let (warehouse, district) = (word_at(text, 1), word_at(text, 2));
    format!(in alloc;
        "district {warehouse} {district} has no order number left: they go up to --orders {orders}"
    )
}

/// The word behind so many others, or no text where there is none.
fn word_at(text: &str, place: usize) -> &str {
    text.split(' ').nth(place).unwrap_or("")
}
