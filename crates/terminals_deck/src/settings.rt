//! The constants of the skewed draws.

ghost use Rattle.std.specs.Prelude.{◌≡◌};
ghost use Rattle.terminals_deck.specs.Settings.{usual_settings};

use population_draws::{CUSTOMER_CONSTANT, ITEM_CONSTANT, LAST_NAME_CONSTANT};

/// C of NURand for each of its uses (TPC-C 2.1.6): which of the numbers of a range are taken oftener. Each is from 0 to
/// its A, 255, 1,023 and 8,191; with a larger one every draw is in its range all the same.
#[derive(Clone, Copy, Debug, PartialEq, Eq)]
pub struct Settings {
    /// For last names.
    pub last_name: u32,
    /// For customers.
    pub customer: u32,
    /// For items.
    pub item: u32,
}

impl Settings {
    /// 100 for last names, 500 for customers, 4,000 for items.
    pub fn usual() -> Settings
        ensures { result ≡ usual_settings }
    {
        Settings {
            last_name: LAST_NAME_CONSTANT,
            customer: CUSTOMER_CONSTANT,
            item: ITEM_CONSTANT,
        }
    }
}
