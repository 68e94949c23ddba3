//! One column, read from its word.

ghost use Rattle.std.specs.Prelude.{⊤, cond};
ghost use Rattle.std.specs.Option.{ForSome, unwrap_or};
ghost use Rattle.tables.specs.Rows.{money_word};
ghost use Rattle.tables.specs.Sizes.{IsBetween, IsNumber};
ghost use Rattle.tables.specs.WellFormed.{IsMoney};
ghost use Rattle.rows.specs.Reading.{IsReading};

use money::{Cents, MAX_MONEY};
use tables::money_from_word;

/// A number from `low` to `high`.
pub(crate) fn number(word: u64, low: u32, high: u32) -> Option<u32>
    ensures { IsReading (IsBetween low high) (λ n. n) word result }
{
    if word < u64::from(low) || word > u64::from(high) {
        return None;
    }
    Some(word as u32)
}

/// A number from 1 to `high`, or null, which is 0.
pub(crate) fn nullable(word: u64, high: u32) -> Option<Option<u32>>
    ensures { IsReading (λ o. ForSome o (IsNumber high)) (λ o. unwrap_or o 0) word result }
{
    if word == 0 {
        return Some(None);
    }
    Some(Some(number(word, 1, high)?))
}

/// Yes or no: 1 or 0.
pub(crate) fn flag(word: u64) -> Option<bool>
    ensures { IsReading (λ b. ⊤) (λ b. cond b 1 0) word result }
{
    match word {
        0 => Some(false),
        1 => Some(true),
        _ => None,
    }
}

/// Money in cents, within 10,000,000,000,000 of zero.
pub(crate) fn money(word: u64) -> Option<Cents>
    ensures { IsReading IsMoney money_word word result }
{
    let amount = money_from_word(word);
    if Cents::new(-MAX_MONEY) <= amount && amount <= Cents::new(MAX_MONEY) {
        Some(amount)
    } else {
        None
    }
}
