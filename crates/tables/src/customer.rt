//! Which customer a terminal means.

ghost use Rattle.std.specs.Prelude.{◌↔◌, IsTrue};

use crate::limits::LAST_NAMES;
use crate::scale::{Scale, is_between};

/// Which customer of a district is meant (TPC-C 2.5.1.2).
#[derive(Clone, Copy, Debug, PartialEq, Eq)]
pub enum Who {
    /// The customer of this C_ID.
    Id(u32),
    /// Of the customers who have the last name of this number, in the order of C_FIRST and then of C_ID, the one at
    /// position n/2, rounded up (TPC-C 2.5.2.2).
    Last(u32),
}

impl Who {
    ghost use Rattle.tables.specs.Customer.{IsWho};

    /// Whether somebody may be meant: a customer of the scale, or a last name below the number of customers and below
    /// 1,000, since each of these is somebody's.
    pub(crate) fn is_in_range(self, scale: &Scale) -> bool
        ensures { IsTrue result ↔ IsWho scale.now self }
    {
        match self {
            Who::Id(customer) => is_between(1, scale.customers(), customer),
            Who::Last(number) => number < scale.customers() && number < LAST_NAMES,
        }
    }
}
