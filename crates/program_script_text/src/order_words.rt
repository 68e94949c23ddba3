//! The words of an order's lines.
ghost use Rattle.std.specs.Prelude.{◌≡◌, ◌<◌, ◌^◌, ◌∷◌, ◌++◌, [], map, IfOk, IfSome, OnOk, MatchOption, MatchResult};
ghost use Rattle.std.specs.Fmt.{decimal};
ghost use Rattle.std.specs.List.{All};
ghost use Rattle.program_script_text.specs.Words.{words};
ghost use Rattle.program_script_text.specs.Requests.{line_word, HasLineNumbers};
ghost use Rattle.program_script_text.specs.OrderWords.{IsNoLine, AreNoLines, AreNoOrder, IsUnread};

use crate::cut::split_word;
use crate::words::{last_number, read_number};
use money::Refusal;
use std::alloc::Global;
use tables::limits::MAX_ORDER_LINES;
use tables::{Lines, RequestedLine};

/// The customer that the first word of a text is, and the order's lines that the words behind it are: none where
/// there are none. Costs a pass over the text, and memory for the lines.
pub(crate) fn read_order(alloc: Global, text: &[u8]) -> Result<(u32, Lines<RequestedLine>), Refusal>
    ensures words { MatchResult result (λ order. words text.now ≡ decimal order.0 ∷ map line_word order.1)
        (IsUnread (AreNoOrder (words text.now))) }
    ensures numbers { IfOk result (λ order. (order.0 < 2 ^ 32) × All HasLineNumbers order.1) }
{
    let Some((customer, rest)) = split_word(text, b' ') else {
        let customer = last_number(text)?;
        return Ok((customer, Lines::new(Vec::new(alloc))));
    };
    let customer = read_number(customer).ok_or(Refusal::BadLine)?;
    let lines = read_lines(alloc, rest)?;
    Ok((customer, lines))
}

fn read_lines(alloc: Global, text: &[u8]) -> Result<Lines<RequestedLine>, Refusal>
    ensures words { MatchResult result (λ lines. words text.now ≡ map line_word lines)
        (IsUnread (AreNoLines (words text.now))) }
    ensures numbers { IfOk result (All HasLineNumbers) }
{
    let mut lines = Vec::with_capacity(alloc, MAX_ORDER_LINES as usize)?;
    let mut rest = text;
    while let Some((word, more)) = split_word(rest, b' ') {
        push_line(&mut lines, word)?;
        rest = more;
    }
    push_line(&mut lines, rest)?;
    Ok(Lines::new(lines))
}

// Reads one more line.
fn push_line(lines: &mut Vec<RequestedLine>, word: &[u8]) -> Result<(), Refusal>
    ensures word { MatchResult result
        (λ _. map line_word lines.new.items ≡ map line_word lines.old.items ++ word.now ∷ [])
        (IsUnread (IsNoLine word.now)) }
    ensures numbers { OnOk result (All HasLineNumbers lines.old.items → All HasLineNumbers lines.new.items) }
{
    let line = read_line(word).ok_or(Refusal::BadLine)?;
    lines.push(line)?;
    Ok(())
}

fn read_line(word: &[u8]) -> Option<RequestedLine>
    ensures word { MatchOption result (IsNoLine word.now) (λ line. word.now ≡ line_word line) }
    ensures numbers { IfSome result HasLineNumbers }
{
    let (item, rest) = split_word(word, b':')?;
    let (supply_warehouse, quantity) = split_word(rest, b':')?;
    let item = read_number(item)?;
    let supply_warehouse = read_number(supply_warehouse)?;
    let quantity = read_number(quantity)?;
    Some(RequestedLine {
        item,
        supply_warehouse,
        quantity,
    })
}
