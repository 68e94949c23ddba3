//! Lines out of bytes that come in pieces.
ghost use Rattle.std.specs.Prelude.{◌≡◌, ◌≤◌, ◌↔◌, ℕ, Option, Some, None, List, [], ◌∷◌, ◌++◌, if◌then◌else◌, IsTrue};
ghost use Rattle.std.specs.Prelude.{IfOk, IfErr, IfSome, IfNone};
ghost use Rattle.std.specs.Option.{option_copied};
ghost use Rattle.std.specs.Vec.{vec_len, vec_capacity};
ghost use Rattle.program_script_text.specs.declared.line_buffer.TheConstants.{MAX_LINE};
ghost use Rattle.program_script_text.specs.Lines.{HasNoLineFeed, IsCut, buffered, held_after, last_line, text_lines};

use crate::cut::split_once;
use money::Refusal;
use std::alloc::Global;
use std::marker::Model;

/// The most bytes that a line may have, less its line feed.
pub const MAX_LINE: usize = 1024;

/// What has come of a line that has not ended yet. It holds `MAX_LINE` bytes at most, in memory that it
/// takes once.
///
/// Contracts see it as those bytes, or as `None` once they are more than `MAX_LINE`: for bytes that have
/// come since the last line feed it is `buffered` of them (`specs/Lines.antt`).
#[derive(Drop)]
pub struct LineBuffer {
    bytes: Vec<u8>,
    is_too_long: bool,
}

impl Model for LineBuffer {
    ghost Value = { Option (List ℕ) };

    ghost view = { λ b. if b.is_too_long then None else Some b.bytes.items };

    ghost invariant = { λ b. (vec_len b.bytes ≤ MAX_LINE) × (MAX_LINE ≤ vec_capacity b.bytes) };
}

impl LineBuffer {
    /// A buffer that holds nothing. Refuses only where memory runs out.
    pub fn new(alloc: Global) -> Result<LineBuffer, Refusal>
        ensures ok { IfOk result (λ buffer. buffer ≡ Some []) }
        ensures memory { IfErr result (λ refusal. refusal ≡ Refusal.OutOfMemory) }
    {
        let bytes = Vec::with_capacity(alloc, MAX_LINE)?;
        Ok(LineBuffer {
            bytes,
            is_too_long: false,
        })
    }

    /// Takes the bytes of a piece up to its first line feed, which ends the line that is held, and gives
    /// what follows; `None` where the piece ends no line, and then all of it is held. Takes no memory.
    pub fn take_line<'a>(&mut self, piece: &'a [u8]) -> Option<&'a [u8]>
        ensures ended { IfSome result (λ rest. (end : List ℕ) × (piece.now ≡ end ++ 10 ∷ rest.now)
            × HasNoLineFeed end × (self.new ≡ held_after self.old end)) }
        ensures goes_on { IfNone result (HasNoLineFeed piece.now) }
        ensures all_held { IfNone result (self.new ≡ held_after self.old piece.now) }
    {
        match split_once(piece, b'\n') {
            Some((end, rest)) => {
                self.hold(end);
                Some(rest)
            }
            None => {
                self.hold(piece);
                None
            }
        }
    }

    /// The line that is held, or `None` where it is too long.
    pub fn line(&self) -> Option<&[u8]>
        ensures { option_copied result ≡ self.now }
    {
        if self.is_too_long {
            return None;
        }
        Some(self.bytes.as_slice())
    }

    /// Whether nothing is held: at the end of the input there is then no further line.
    pub fn is_empty(&self) -> bool
        ensures { IsTrue result ↔ (self.now ≡ Some []) }
    {
        !self.is_too_long && self.bytes.is_empty()
    }

    /// Lets go of the line that is held.
    pub fn clear(&mut self)
        ensures { self.new ≡ Some [] }
    {
        self.bytes.clear();
        self.is_too_long = false;
    }

    fn hold(&mut self, more: &[u8])
        ensures { self.new ≡ held_after self.old more.now }
    {
        if self.is_too_long {
            return;
        }
        if more.len() <= MAX_LINE - self.bytes.len() {
            self.bytes.extend_from_slice(more).unwrap();
        } else {
            self.is_too_long = true;
        }
    }
}

/// The laws by which a loop over `take_line` answers the lines of its whole input, as `IsCut` has them: the
/// input so far is the lines that were answered, each with its line feed, and then the bytes whose line goes
/// on, of which the buffer has what `buffered` says.
pub fn cutting_laws()
    ensures start { IsCut [] [] [] }
    ensures line { (text : List ℕ) (lines : List (List ℕ)) (rest end : List ℕ)
        → IsCut text lines rest → HasNoLineFeed end
        → IsCut (text ++ (end ++ 10 ∷ [])) (lines ++ (rest ++ end) ∷ []) [] }
    ensures more { (text : List ℕ) (lines : List (List ℕ)) (rest more : List ℕ)
        → IsCut text lines rest → HasNoLineFeed more
        → IsCut (text ++ more) lines (rest ++ more) }
    ensures buffer { (rest more : List ℕ) → held_after (buffered rest) more ≡ buffered (rest ++ more) }
    ensures lines { (text : List ℕ) (lines : List (List ℕ)) (rest : List ℕ) → IsCut text lines rest
        → text_lines text ≡ lines ++ last_line rest }
{}
