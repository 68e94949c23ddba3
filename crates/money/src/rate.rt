//! Rates of tax and discount.
ghost use Rattle.std.specs.Prelude.{◌≡◌, ℕ, ◌≤◌, ◌↔◌, IsSome, IfSome};

use std::marker::Model;

/// A rate in ten-thousandths, from 0 to 10,000: 0.1000 is 1000 (TPC-C, clause 1.3.1, C_DISCOUNT).
#[derive(Clone, Copy, Debug, PartialEq, Eq, PartialOrd, Ord)]
pub struct Rate {
    ten_thousandths: u16,
}

impl Model for Rate {
    ghost Value = { ℕ };

    ghost view = { λ r. r.ten_thousandths };

    ghost invariant = { λ r. r.ten_thousandths ≤ 10000 };

    ghost inverse = { λ n. record { ten_thousandths = n } };
}

impl Rate {
    /// This rate, or `None` above 10,000 ten-thousandths.
    pub fn new(ten_thousandths: u16) -> Option<Rate>
        ensures valid { IsSome result ↔ (ten_thousandths ≤ 10000) }
        ensures value { IfSome result (λ r. r ≡ ten_thousandths) }
    {
        if ten_thousandths <= 10_000 {
            Some(Rate { ten_thousandths })
        } else {
            None
        }
    }

    /// The rate in ten-thousandths, at most 10,000.
    pub fn ten_thousandths(self) -> u16
        ensures value { result ≡ self }
        ensures bound { result ≤ 10000 }
    {
        self.ten_thousandths
    }
}
