//! The text of an amount of money, as `-12.34`: an optional minus, units without a leading zero, a
//! point and two digits. Each amount has one text.
ghost use Rattle.std.specs.Prelude.{◌≡◌, ◌≢◌, ℕ, ◌≤◌, ℤ, ◌++◌, IfOk, IfErr, OnOk, OnErr, IfNone, IfSome};
ghost use Rattle.std.specs.Prelude.{string_bytes, decimal, length, FitsSigned, ◌<◌};
ghost use Rattle.std.specs.Int.{w64};
ghost use Rattle.money.specs.Money.{money_text, unsigned_money_text, IsMoneyText};

use crate::{Cents, MAX_MONEY, Refusal};
use std::fmt;

/// The largest amount that is read, on either side of zero.
const LIMIT: u64 = MAX_MONEY as u64;

/// The digits of the largest number of units that is read.
const MAX_DIGITS: usize = 12;

impl Cents {
    /// The amount within 10,000,000,000,000 cents of zero that has this text. Takes no memory.
    pub fn read(text: &str) -> Result<Cents, Refusal>
        ensures ok { IfOk result (IsMoneyText text.now) }
        ensures inverse { (z : ℤ) → IsMoneyText text.now z → result ≡ Ok z }
        ensures no_money { OnErr result ((z : ℤ) → ¬ IsMoneyText text.now z) }
        ensures refusal { IfErr result (λ e. e ≡ Refusal.BadInput) }
    {
        let bytes = text.as_bytes();
        if text.starts_with('-') {
            return match read_unsigned(&bytes[1..]) {
                Some(cents) if cents > 0 => Ok(Cents::new(-(cents as i64))),
                _ => Err(Refusal::BadInput),
            };
        }
        match read_unsigned(bytes) {
            Some(cents) => Ok(Cents::new(cents as i64)),
            None => Err(Refusal::BadInput),
        }
    }

    /// Appends the text of this amount. Refuses only where memory runs out, and then `out` is as
    /// before.
    pub fn print(self, out: &mut String) -> Result<(), Refusal>
        ensures ok { OnOk result (string_bytes out.new ≡ string_bytes out.old ++ money_text self) }
        ensures err { OnErr result (string_bytes out.new ≡ string_bytes out.old) }
        ensures memory { IfErr result (λ e. e ≡ Refusal.OutOfMemory) }
    {
        let text = self.to_string(*out.allocator())?;
        out.push_str(text.as_str())?;
        Ok(())
    }
}

/// The money text, as `-12.34`.
impl fmt::Display for Cents {
    ghost use Rattle.std.specs.Prelude.{Some};
    ghost use Rattle.money.specs.Money.{money_text};

    ghost output = { λ z. Some (money_text z) };

    fn fmt<W: fmt::Write>(&self, f: &mut fmt::Formatter<W>) -> fmt::Result {
        let amount = self.amount();
        let sign = if amount < 0 { "-" } else { "" };
        let cents = amount.unsigned_abs();
        let (units, hundredths) = (cents / 100, cents % 100);
        write!(f, "{sign}{units}.{hundredths:02}")
    }
}

/// Two amounts with the same text are the same, so the amount that is read from a printed text is
/// the one that was printed.
pub fn one_text_one_value()
    ensures { (a b : ℤ) → FitsSigned w64 a → FitsSigned w64 b → money_text a ≡ money_text b
        → a ≡ b }
{}

// The number of cents up to the limit that has this text without a sign.
fn read_unsigned(text: &[u8]) -> Option<u64>
    ensures some { IfSome result (λ n. (text.now ≡ unsigned_money_text n) × (n ≤ LIMIT)) }
    ensures none { IfNone result ((n : ℕ) → n ≤ LIMIT → text.now ≢ unsigned_money_text n) }
{
    if text.len() < 3 {
        return None;
    }
    let (units, rest) = text.split_at(text.len() - 3);
    let (tens, ones) = (rest[1], rest[2]);
    if rest[0] != b'.' || !tens.is_ascii_digit() || !ones.is_ascii_digit() {
        return None;
    }
    let hundredths = u64::from(tens - b'0') * 10 + u64::from(ones - b'0');
    let cents = read_decimal(units)? * 100 + hundredths;
    if cents <= LIMIT { Some(cents) } else { None }
}

// The number of at most twelve digits that has these digits, with no zero in front.
fn read_decimal(digits: &[u8]) -> Option<u64>
    ensures some { IfSome result (λ n. (digits.now ≡ decimal n) × (n < 1000000000000)) }
    ensures none { IfNone result ((n : ℕ) → n < 1000000000000 → digits.now ≢ decimal n) }
{
    if digits.is_empty() || digits.len() > MAX_DIGITS || (digits[0] == b'0' && digits.len() > 1) {
        return None;
    }
    let mut number = 0;
    for digit in digits {
        if !digit.is_ascii_digit() {
            return None;
        }
        number = number * 10 + u64::from(digit - b'0');
    }
    Some(number)
}
