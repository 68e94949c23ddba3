//! Amounts of money in whole cents.
ghost use Rattle.std.specs.Prelude.{◌≡◌, ℤ, ◌+ℤ◌, ◌-ℤ◌, FitsSigned};
ghost use Rattle.std.specs.Int.{w64};

use std::marker::Model;
use std::ops::{Add, Sub};

/// How far from zero an amount that is read or kept may be, in cents.
pub const MAX_MONEY: i64 = 10_000_000_000_000;

/// An amount of money in whole cents, from -2^63 to 2^63 - 1. Contracts see it as that number.
#[derive(Clone, Copy, Debug, PartialEq, Eq, PartialOrd, Ord)]
pub struct Cents {
    amount: i64,
}

impl Model for Cents {
    ghost Value = { ℤ };

    ghost view = { λ c. c.amount };

    ghost inverse = { λ z. record { amount = z } };
}

impl Cents {
    /// This many cents.
    pub const fn new(amount: i64) -> Cents
        ensures { result ≡ amount }
    {
        Cents { amount }
    }

    /// The number of cents.
    pub fn amount(self) -> i64
        ensures { result ≡ self }
    {
        self.amount
    }
}

/// The sum, which the caller keeps within an `i64`.
impl Add for Cents {
    type Output = Cents;

    ghost can_add = { λ a b. FitsSigned w64 (a +ℤ b) };

    ghost add_gives = { λ a b r. r ≡ a +ℤ b };

    fn add(self, other: Cents) -> Cents {
        Cents {
            amount: self.amount + other.amount,
        }
    }
}

/// The difference, which the caller keeps within an `i64`.
impl Sub for Cents {
    type Output = Cents;

    ghost can_sub = { λ a b. FitsSigned w64 (a -ℤ b) };

    ghost sub_gives = { λ a b r. r ≡ a -ℤ b };

    fn sub(self, other: Cents) -> Cents {
        Cents {
            amount: self.amount - other.amount,
        }
    }
}
