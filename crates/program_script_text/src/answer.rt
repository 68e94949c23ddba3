//! What is printed for a line of a script.
ghost use Rattle.std.specs.Prelude.{◌≡◌, ◌++◌, OnOk, OnErr, IfErr, string_bytes, codes};
ghost use Rattle.program_script_text.specs.declared.answer.Answer.TheVariants as answer;
ghost use Rattle.program_script_text.specs.Output.{answer_text, refused_item};

use crate::ShownRow;
use crate::replies::print_reply;
use money::Refusal;
use std::fmt::{self, Display};
use tables::Reply;

/// What a line of a script is answered with.
#[derive(Debug, Drop)]
pub enum Answer {
    /// A committed transaction's reply.
    Reply(Reply),
    /// A row that was asked for.
    Row(ShownRow),
    /// A line that was refused, counted from 1, as `14 line 3` or `5 line 3 item 21`.
    Refused { refusal: Refusal, line: u64 },
}

/// Room for nearly all rows and refusals, so that few of them have to grow.
const ANSWER_ROOM: usize = 256;

impl Answer {
    /// Appends this answer and a line feed. Refuses only where memory runs out, and then `out` is as before.
    pub fn print(&self, out: &mut String) -> Result<(), Refusal>
        ensures ok { OnOk result
            (string_bytes out.new ≡ string_bytes out.old ++ (answer_text self.now ++ codes "\n")) }
        ensures err { OnErr result (string_bytes out.new ≡ string_bytes out.old) }
        ensures memory { IfErr result (λ refusal. refusal ≡ Refusal.OutOfMemory) }
    {
        match self {
            Answer::Reply(reply) => print_reply(reply, out),
            Answer::Row(row) => print_row(row, out),
            Answer::Refused { refusal, line } => print_refused(
                RefusedLine {
                    refusal: *refusal,
                    line: *line,
                },
                out,
            ),
        }
    }
}

/// Appends a row and a line feed, by way of a text of its own.
fn print_row(row: &ShownRow, out: &mut String) -> Result<(), Refusal>
    ensures ok { OnOk result
        (string_bytes out.new ≡ string_bytes out.old ++ (answer_text (answer.Row row.now) ++ codes "\n")) }
    ensures err { OnErr result (string_bytes out.new ≡ string_bytes out.old) }
    ensures memory { IfErr result (λ refusal. refusal ≡ Refusal.OutOfMemory) }
{
    let mut text = String::with_capacity(*out.allocator(), ANSWER_ROOM)?;
    write!(text, "{row}\n")?;
    out.push_str(text.as_str())?;
    Ok(())
}

/// Appends a refused line and a line feed, by way of a text of its own.
fn print_refused(refused: RefusedLine, out: &mut String) -> Result<(), Refusal>
    ensures ok { OnOk result (string_bytes out.new
        ≡ string_bytes out.old ++ (answer_text (answer.Refused refused.refusal refused.line) ++ codes "\n")) }
    ensures err { OnErr result (string_bytes out.new ≡ string_bytes out.old) }
    ensures memory { IfErr result (λ refusal. refusal ≡ Refusal.OutOfMemory) }
{
    let mut text = String::with_capacity(*out.allocator(), ANSWER_ROOM)?;
    write!(text, "{refused}\n")?;
    out.push_str(text.as_str())?;
    Ok(())
}

#[derive(Clone, Copy)]
struct RefusedLine {
    refusal: Refusal,
    line: u64,
}

impl Display for RefusedLine {
    ghost use Rattle.std.specs.Prelude.{Some};
    ghost use Rattle.std.specs.List.{join_with_byte};
    ghost use Rattle.program_script_text.specs.Output.{refused_words};

    ghost output = { λ refused. Some (join_with_byte 32 (refused_words refused.refusal refused.line)) };

    fn fmt<W: fmt::Write>(&self, f: &mut fmt::Formatter<W>) -> fmt::Result {
        let (number, line) = (self.refusal.number(), self.line);
        match item_of(self.refusal) {
            Some(item) => write!(f, "{number} line {line} item {item}"),
            None => write!(f, "{number} line {line}"),
        }
    }
}

// The item that a refusal names.
fn item_of(refusal: Refusal) -> Option<u32>
    ensures { result ≡ refused_item refusal }
{
    match refusal {
        Refusal::ItemNotValid { item } => Some(item),
        _ => None,
    }
}
