//! The parts of an answer, appended to a text that has room for them, so that none of it takes memory.
ghost use Rattle.std.specs.Prelude.{◌≤◌, ◌<◌, ◌+◌, ◌∷◌, [], ◌++◌, length};
ghost use Rattle.std.specs.String.{string_len, string_capacity};
ghost use Rattle.std.specs.Fmt.{decimal};
ghost use Rattle.money.specs.Money.{money_text, unsigned_money_text};
ghost use Rattle.program_script_text.specs.Output.{nullable_word};
ghost use Rattle.program_script_text.specs.Room.{Pushes};

use crate::digits::{three_digits, two_digits};
use itoa::Buffer;
use money::Cents;

/// The most bytes of a number.
pub(crate) const NUMBER_ROOM: usize = 10;

/// The most bytes of an amount.
pub(crate) const AMOUNT_ROOM: usize = 24;

/// Appends what stands before a number, and the number.
#[inline(always)]
pub(crate) fn push_field(out: &mut String, before: &str, number: u32)
    requires { string_len out.old + (length before.now + NUMBER_ROOM) ≤ string_capacity out.old }
    ensures { Pushes out.old out.new (before.now ++ decimal number) (length before.now + NUMBER_ROOM) }
{
    push_text(out, before);
    push_number(out, number);
}

/// Appends what stands before a column that may be null, and the column.
#[inline(always)]
pub(crate) fn push_nullable(out: &mut String, before: &str, column: Option<u32>)
    requires { string_len out.old + (length before.now + NUMBER_ROOM) ≤ string_capacity out.old }
    ensures { Pushes out.old out.new (before.now ++ nullable_word column) (length before.now + NUMBER_ROOM) }
{
    push_text(out, before);
    match column {
        Some(number) => push_number(out, number),
        None => push_text(out, "-"),
    }
}

/// Appends what stands before an amount, and the amount.
#[inline(always)]
pub(crate) fn push_amount(out: &mut String, before: &str, amount: Cents)
    requires { string_len out.old + (length before.now + AMOUNT_ROOM) ≤ string_capacity out.old }
    ensures { Pushes out.old out.new (before.now ++ money_text amount) (length before.now + AMOUNT_ROOM) }
{
    push_text(out, before);
    push_cents(out, amount);
}

/// Appends a text.
#[inline(always)]
pub(crate) fn push_text(out: &mut String, text: &str)
    requires { string_len out.old + length text.now ≤ string_capacity out.old }
    ensures { Pushes out.old out.new text.now (length text.now) }
{
    out.push_str(text).unwrap();
}

/// Appends a number.
#[inline(always)]
fn push_number(out: &mut String, number: u32)
    requires { string_len out.old + NUMBER_ROOM ≤ string_capacity out.old }
    ensures { Pushes out.old out.new (decimal number) NUMBER_ROOM }
{
    if number < 1000 {
        push_short(out, number as usize);
    } else {
        push_long(out, number);
    }
}

/// Appends an amount.
fn push_cents(out: &mut String, amount: Cents)
    requires { string_len out.old + AMOUNT_ROOM ≤ string_capacity out.old }
    ensures { Pushes out.old out.new (money_text amount) AMOUNT_ROOM }
{
    let cents = amount.amount();
    if cents < 0 {
        push_text(out, "-");
    }
    push_unsigned(out, cents.unsigned_abs());
}

/// Appends an amount from zero on.
fn push_unsigned(out: &mut String, cents: u64)
    requires { string_len out.old + 23 ≤ string_capacity out.old }
    ensures { Pushes out.old out.new (unsigned_money_text cents) 23 }
{
    let (units, hundredths) = (cents / 100, (cents % 100) as usize);
    if units <= u64::from(u32::MAX) {
        push_number(out, units as u32);
    } else {
        push_text(out, Buffer::new().format(units));
    }
    push_text(out, ".");
    push_text(out, two_digits(hundredths));
}

/// Appends a number of more than three digits.
#[inline(never)]
fn push_long(out: &mut String, number: u32)
    requires number { 1000 ≤ number }
    requires room { string_len out.old + NUMBER_ROOM ≤ string_capacity out.old }
    ensures { Pushes out.old out.new (decimal number) NUMBER_ROOM }
{
    if number < 1_000_000 {
        push_thousands(out, number as usize);
    } else {
        push_text(out, Buffer::new().format(number));
    }
}

/// Appends a number of four to six digits.
#[inline(always)]
fn push_thousands(out: &mut String, number: usize)
    requires number { (1000 ≤ number) × (number < 1000000) }
    requires room { string_len out.old + 6 ≤ string_capacity out.old }
    ensures { Pushes out.old out.new (decimal number) 6 }
{
    push_short(out, number / 1000);
    push_text(out, three_digits(number % 1000));
}

/// Appends a number of three digits at most.
#[inline(always)]
#[tactic(auto, using(crate::proofs::DigitTable::short_decimals))]
fn push_short(out: &mut String, number: usize)
    requires number { number < 1000 }
    requires room { string_len out.old + 3 ≤ string_capacity out.old }
    ensures { Pushes out.old out.new (decimal number) 3 }
{
    if number < 10 {
        push_digit(out, number as u8);
    } else if number < 100 {
        push_text(out, two_digits(number));
    } else {
        push_text(out, three_digits(number));
    }
}

/// Appends a digit.
#[inline(always)]
fn push_digit(out: &mut String, digit: u8)
    requires digit { digit < 10 }
    requires room { string_len out.old + 1 ≤ string_capacity out.old }
    ensures { Pushes out.old out.new ((48 + digit) ∷ []) 1 }
{
    out.push(char::from(b'0' + digit)).unwrap();
}
