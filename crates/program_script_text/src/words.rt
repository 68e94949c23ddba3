//! The words of a line, which are parted by one space each. Each function here refuses with `BadLine`.
ghost use Rattle.std.specs.Prelude.{◌≡◌, ◌≢◌, ℕ, ◌<◌, ◌^◌, List, [], ◌∷◌, IfNone, IfSome, MatchOption, MatchResult};
ghost use Rattle.std.specs.Fmt.{decimal};
ghost use Rattle.program_script_text.specs.Words.{words};

use crate::cut::split_word;
use money::Refusal;

/// The most digits that a number below 2^32 has.
const MAX_DIGITS: usize = 10;

/// The number that a word is: digits with no leading zero, or 0 alone, up to `u32::MAX`. Many words have one digit.
#[inline(always)]
pub(crate) fn read_number(word: &[u8]) -> Option<u32>
    ensures { MatchOption result ((n : ℕ) → n < 2 ^ 32
        → word.now ≢ decimal n) (λ n. word.now ≡ decimal n) }
{
    match word {
        [digit @ b'0'..=b'9'] => Some(u32::from(*digit - b'0')),
        _ => read_longer(word),
    }
}

/// The same, for a word of more bytes.
fn read_longer(word: &[u8]) -> Option<u32>
    ensures { MatchOption result ((n : ℕ) → n < 2 ^ 32
        → word.now ≢ decimal n) (λ n. word.now ≡ decimal n) }
{
    let number = read_digits(word)?;
    if number <= u64::from(u32::MAX) {
        Some(number as u32)
    } else {
        None
    }
}

/// The same of a number of ten digits at most.
fn read_digits(word: &[u8]) -> Option<u64>
    ensures some { IfSome result (λ n. (word.now ≡ decimal n) × (n < 10000000000)) }
    ensures none { IfNone result ((n : ℕ) → n < 10000000000 → word.now ≢ decimal n) }
{
    if word.is_empty() || word.len() > MAX_DIGITS || (word[0] == b'0' && word.len() > 1) {
        return None;
    }
    let mut number = 0;
    for digit in word {
        if !digit.is_ascii_digit() {
            return None;
        }
        number = number * 10 + u64::from(digit - b'0');
    }
    Some(number)
}

/// The first of several words, and the text after it.
pub(crate) fn take_word(text: &[u8]) -> Result<(&[u8], &[u8]), Refusal>
    ensures { MatchResult result (λ parts. words text.now ≡ parts.0.now ∷ words parts.1.now)
        (λ refusal. (refusal ≡ Refusal.BadLine) × (words text.now ≡ text.now ∷ [])) }
{
    split_word(text, b' ').ok_or(Refusal::BadLine)
}

/// The number that the first of several words is, and the text after it.
pub(crate) fn take_number(text: &[u8]) -> Result<(u32, &[u8]), Refusal>
    ensures { MatchResult result (λ parts. words text.now ≡ decimal parts.0 ∷ words parts.1.now)
        (λ refusal. (refusal ≡ Refusal.BadLine)
        × ((n : ℕ) → n < 2 ^ 32 → (next : List ℕ) (others : List (List ℕ)) →
        words text.now ≢ decimal n ∷ next ∷ others)) }
{
    let (word, rest) = take_word(text)?;
    let number = read_number(word).ok_or(Refusal::BadLine)?;
    Ok((number, rest))
}

/// The number that the only word of a text is.
pub(crate) fn last_number(text: &[u8]) -> Result<u32, Refusal>
    ensures { MatchResult result (λ n. words text.now ≡ decimal n ∷ [])
        (λ refusal. (refusal ≡ Refusal.BadLine)
        × ((n : ℕ) → n < 2 ^ 32 → words text.now ≢ decimal n ∷ [])) }
{
    read_number(text).ok_or(Refusal::BadLine)
}
