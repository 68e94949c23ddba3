//! The text of an amount of money of any size.
ghost use Rattle.std.specs.Prelude.{◌≡◌, ◌≢◌, ◌⊎◌, ◌++◌, ◌<◌, ℕ, ℤ, MatchBool, MatchResult, codes};
ghost use Rattle.std.specs.List.{list_all};
ghost use Rattle.std.specs.Char.{is_ascii_digit};
ghost use Rattle.money.specs.Money.{IsWithinLimit, money_text, two_digits};
ghost use Rattle.program_script_text.specs.Amount.{numeral, unsigned_amount_text, amount_text};

use money::{Cents, Refusal};

/// The amount that a word is, of 10,000,000,000,000 cents from zero at most: `BadInput` for one beyond
/// that, and `BadLine` for a word that is the text of no amount.
pub(crate) fn read_amount(word: &[u8]) -> Result<Cents, Refusal>
    ensures { MatchResult result (λ z. (word.now ≡ amount_text z) × IsWithinLimit z)
        (λ refusal.
        ((refusal ≡ Refusal.BadInput) × ((z : ℤ) × (word.now ≡ amount_text z) × ¬ IsWithinLimit z))
        ⊎ ((refusal ≡ Refusal.BadLine) × ((z : ℤ) → word.now ≢ amount_text z))) }
{
    let Ok(text) = str::from_utf8(word) else {
        return Err(Refusal::BadLine);
    };
    match Cents::read(text) {
        Ok(amount) => Ok(amount),
        Err(_) if is_amount(word) => Err(Refusal::BadInput),
        Err(_) => Err(Refusal::BadLine),
    }
}

/// An amount that can be read has the text that `Cents` prints.
pub fn amounts_read_as_printed()
    ensures { (z : ℤ) → IsWithinLimit z → amount_text z ≡ money_text z }
{}

// Whether a word is the text of an amount, of any size.
fn is_amount(word: &[u8]) -> bool
    ensures { MatchBool result ((z : ℤ) × (word.now ≡ amount_text z)) ((z : ℤ)
        → word.now ≢ amount_text z) }
{
    match word {
        [b'-', unsigned @ ..] => is_unsigned_amount(unsigned) && unsigned != b"0.00".as_slice(),
        _ => is_unsigned_amount(word),
    }
}

// The same of an amount without a sign.
fn is_unsigned_amount(word: &[u8]) -> bool
    ensures { MatchBool result ((n : ℕ) × (word.now ≡ unsigned_amount_text n))
        ((n : ℕ) → word.now ≢ unsigned_amount_text n) }
{
    if word.len() < 3 {
        return false;
    }
    let (units, cents) = word.split_at(word.len() - 3);
    is_numeral(units) && are_cents(cents)
}

// Whether these bytes are a point and two digits.
fn are_cents(bytes: &[u8]) -> bool
    ensures { MatchBool result ((n : ℕ) × (n < 100) × (bytes.now ≡ codes "." ++ two_digits n))
        ((n : ℕ) → n < 100 → bytes.now ≢ codes "." ++ two_digits n) }
{
    matches!(bytes, [b'.', b'0'..=b'9', b'0'..=b'9'])
}

// Whether a word is a number of any size, with no zero in front.
fn is_numeral(word: &[u8]) -> bool
    ensures { MatchBool result ((n : ℕ) × (word.now ≡ numeral n)) ((n : ℕ) → word.now ≢ numeral n) }
{
    if let [b'0', _, ..] = word {
        return false;
    }
    !word.is_empty() && are_digits(word)
}

fn are_digits(word: &[u8]) -> bool
    ensures { result ≡ list_all is_ascii_digit word.now }
{
    word.iter().all(|byte| byte.is_ascii_digit())
}
