//! The words that name a customer: a number, or a last name (TPC-C 4.3.2.3).
ghost use Rattle.std.specs.Prelude.{◌≡◌, ◌≢◌, ℕ, ◌<◌, List, [], ◌∷◌, ◌++◌, IfOk, IfSome, MatchOption, MatchResult};
ghost use Rattle.tables.specs.declared.customer.Who.{Who as WhoValue};
ghost use Rattle.tables.specs.declared.limits.TheConstants.{LAST_NAMES};
ghost use Rattle.program_script_text.specs.Words.{words};
ghost use Rattle.program_script_text.specs.LastNames.{syllable, name_word, who_word, HasWho};

use crate::words::{read_number, take_word};
use money::Refusal;
use tables::Who;

/// The customer that the first of several words names, and the text after it. Refuses with `BadLine`.
pub(crate) fn take_who(text: &[u8]) -> Result<(Who, &[u8]), Refusal>
    ensures words { MatchResult result (λ parts. words text.now ≡ who_word parts.0 ∷ words parts.1.now)
        (λ refusal. (refusal ≡ Refusal.BadLine)
        × ((who : WhoValue) → HasWho who → (next : List ℕ) (others : List (List ℕ)) →
        words text.now ≢ who_word who ∷ next ∷ others)) }
    ensures who { IfOk result (λ parts. HasWho parts.0) }
{
    let (word, rest) = take_word(text)?;
    let who = read_who(word).ok_or(Refusal::BadLine)?;
    Ok((who, rest))
}

/// The customer that the only word of a text names. Refuses with `BadLine`.
pub(crate) fn last_who(text: &[u8]) -> Result<Who, Refusal>
    ensures words { MatchResult result (λ who. words text.now ≡ who_word who ∷ [])
        (λ refusal. (refusal ≡ Refusal.BadLine)
        × ((who : WhoValue) → HasWho who → words text.now ≢ who_word who ∷ [])) }
    ensures who { IfOk result HasWho }
{
    read_who(text).ok_or(Refusal::BadLine)
}

/// The customer that a word names.
fn read_who(word: &[u8]) -> Option<Who>
    ensures word { MatchOption result ((who : WhoValue) → HasWho who
        → word.now ≢ who_word who) (λ who. word.now ≡ who_word who) }
    ensures who { IfSome result HasWho }
{
    if let Some(customer) = read_number(word) {
        return Some(Who::Id(customer));
    }
    let number = read_name(word)?;
    Some(Who::Last(number))
}

/// The number, below 1,000, whose last name a word is.
fn read_name(word: &[u8]) -> Option<u32>
    ensures { MatchOption result ((n : ℕ) → n < LAST_NAMES → word.now ≢ name_word n)
        (λ n. (n < LAST_NAMES) × (word.now ≡ name_word n)) }
{
    let (hundreds, rest) = take_syllable(word)?;
    let (tens, rest) = take_syllable(rest)?;
    let (ones, rest) = take_syllable(rest)?;
    if rest.is_empty() {
        Some(hundreds * 100 + tens * 10 + ones)
    } else {
        None
    }
}

/// The digit whose syllable a text begins with, and the text after it.
fn take_syllable(text: &[u8]) -> Option<(u32, &[u8])>
    ensures { MatchOption result ((d : ℕ) → d < 10 → (rest : List ℕ) → text.now ≢ syllable d ++ rest)
        (λ parts. (parts.0 < 10) × (text.now ≡ syllable parts.0 ++ parts.1.now)) }
{
    for digit in 0..10 {
        if let Some(rest) = text.strip_prefix(syllable_of(digit)) {
            return Some((digit, rest));
        }
    }
    None
}

/// The syllable of a digit. A greater number has none.
fn syllable_of(digit: u32) -> &'static [u8]
    ensures { result.now ≡ syllable digit }
{
    match digit {
        0 => b"BAR",
        1 => b"OUGHT",
        2 => b"ABLE",
        3 => b"PRI",
        4 => b"PRES",
        5 => b"ESE",
        6 => b"ANTI",
        7 => b"CALLY",
        8 => b"ATION",
        9 => b"EING",
        _ => b"",
    }
}
