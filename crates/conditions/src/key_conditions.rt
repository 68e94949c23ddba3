//! The conditions that are asked of each warehouse or of each district of the scale.

ghost use Rattle.std.specs.Prelude.{◌≡◌, ◌+◌, ◌↔◌, IsTrue};
ghost use Rattle.tables.specs.Database.{Database, database};
ghost use Rattle.tables.specs.Conditions.{Condition1At, Condition2At, Condition3At, Condition4At, Condition8At};
ghost use Rattle.tables.specs.Conditions.{Condition9At};
ghost use Rattle.conditions.specs.Sums.{AreSumsOf};

use crate::amounts::amount_of;
use crate::columns::{district_year_to_date, next_order, warehouse_year_to_date};
use crate::numbers::numbers_of;
use crate::sums::Sums;
use money::Cents;
use tables::{DistrictKey, Tables};

/// A condition that is asked of each key of a kind.
pub trait Condition<K> {
    ghost holds_at: { Database → K → Type 0 };

    /// Whether it holds at a key.
    fn holds(tables: &Tables, sums: &Sums, key: &K) -> bool
        requires { AreSumsOf (database tables.now) sums.now }
        ensures { IsTrue result ↔ holds_at (database tables.now) key.now };
}

/// W_YTD is the sum of the warehouse's D_YTD (TPC-C 3.3.2.1).
pub struct Condition1;

impl Condition<u32> for Condition1 {
    ghost holds_at = { Condition1At };

    fn holds(tables: &Tables, sums: &Sums, key: &u32) -> bool {
        amount(warehouse_year_to_date(tables, key)) == amount_of(&sums.districts, key)
    }
}

/// D_NEXT_O_ID - 1 is the greatest O_ID, and the greatest NO_O_ID where there is one (TPC-C 3.3.2.2).
pub struct Condition2;

impl Condition<DistrictKey> for Condition2 {
    ghost holds_at = { Condition2At };

    fn holds(tables: &Tables, sums: &Sums, key: &DistrictKey) -> bool {
        let next = next_order(tables, key);
        let new_orders = numbers_of(&sums.orders.new_orders, key);
        is_after(numbers_of(&sums.orders.orders, key).greatest, next)
            && (new_orders.count == 0 || is_after(new_orders.greatest, next))
    }
}

/// The greatest NO_O_ID minus the least plus 1 is the number of NEW-ORDER rows, where there are any
/// (TPC-C 3.3.2.3).
pub struct Condition3;

impl Condition<DistrictKey> for Condition3 {
    ghost holds_at = { Condition3At };

    fn holds(_tables: &Tables, sums: &Sums, key: &DistrictKey) -> bool {
        let new_orders = numbers_of(&sums.orders.new_orders, key);
        new_orders.count == 0
            || u64::from(new_orders.greatest) + 1 == u64::from(new_orders.least) + new_orders.count
    }
}

/// The sum of O_OL_CNT is the number of ORDER-LINE rows (TPC-C 3.3.2.4).
pub struct Condition4;

impl Condition<DistrictKey> for Condition4 {
    ghost holds_at = { Condition4At };

    fn holds(_tables: &Tables, sums: &Sums, key: &DistrictKey) -> bool {
        amount_of(&sums.orders.line_counts, key) == amount_of(&sums.lines.districts, key)
    }
}

/// W_YTD is the sum of H_AMOUNT (TPC-C 3.3.2.8).
pub struct Condition8;

impl Condition<u32> for Condition8 {
    ghost holds_at = { Condition8At };

    fn holds(tables: &Tables, sums: &Sums, key: &u32) -> bool {
        amount(warehouse_year_to_date(tables, key)) == amount_of(&sums.history.warehouses, key)
    }
}

/// D_YTD is the sum of H_AMOUNT (TPC-C 3.3.2.9).
pub struct Condition9;

impl Condition<DistrictKey> for Condition9 {
    ghost holds_at = { Condition9At };

    fn holds(tables: &Tables, sums: &Sums, key: &DistrictKey) -> bool {
        amount(district_year_to_date(tables, key)) == amount_of(&sums.history.districts, key)
    }
}

/// Whether an order number is the next after another.
fn is_after(last: u32, next: u32) -> bool
    ensures { IsTrue result ↔ (last + 1 ≡ next) }
{
    u64::from(last) + 1 == u64::from(next)
}

/// An amount to be compared with a sum.
pub fn amount(cents: Cents) -> i128
    ensures { result ≡ cents }
{
    i128::from(cents.amount())
}
