//! What a record's words are worth to the sums.

ghost use Rattle.std.specs.Prelude.{◌≡◌, ◌<◌};
ghost use Rattle.std.specs.Option.{option_copied};
ghost use Rattle.totals.specs.Steps.{signed_in, one_of, delivered_in};

use money::Payload;
use rows::column::{OL_AMOUNT, OL_DELIVERY_D};

/// A word of a record as a number with a sign, and 0 where the record is absent.
pub fn signed_word(value: Option<&Payload>, place: usize) -> i64
    requires { place < 7 }
    ensures { result ≡ signed_in place (option_copied value.entry) }
{
    match value {
        Some(words) => words[place].cast_signed(),
        None => 0,
    }
}

/// 1 where the record is there.
pub fn presence(value: Option<&Payload>) -> i64
    ensures { result ≡ one_of (option_copied value.entry) }
{
    match value {
        Some(_) => 1,
        None => 0,
    }
}

/// The same as a small number.
pub fn small_presence(value: Option<&Payload>) -> i8
    ensures { result ≡ one_of (option_copied value.entry) }
{
    match value {
        Some(_) => 1,
        None => 0,
    }
}

/// OL_AMOUNT of a line that has a date of delivery.
pub fn delivered_amount(value: Option<&Payload>) -> i64
    ensures { result ≡ delivered_in (option_copied value.entry) }
{
    match value {
        Some(words) if words[OL_DELIVERY_D] > 0 => words[OL_AMOUNT].cast_signed(),
        _ => 0,
    }
}
