//! The conditions that are asked of each customer of the scale.

ghost use Rattle.std.specs.Prelude.{◌≡◌, ◌+ℤ◌, ◌-ℤ◌, ◌↔◌, IsTrue};
ghost use Rattle.tables.specs.Database.{Database, database};
ghost use Rattle.tables.specs.Conditions.{Condition10At, Condition12At, delivered_amount, paid_by_customer};
ghost use Rattle.tables.specs.declared.keys.CustomerKey.{CustomerKey as KeyOfCustomer};
ghost use Rattle.conditions.specs.Sums.{AreSumsOf};
ghost use Rattle.conditions.specs.CustomerWalks.{AreWalksOf};

use crate::amounts::{amount_along, difference, equal};
use crate::columns::{balance, paid};
use crate::customer_walks::CustomerWalks;
use crate::key_conditions::amount;
use crate::sums::Sums;
use money::Cents;
use tables::{CustomerKey, Tables};

/// A condition that is asked of each customer, in their order.
pub trait CustomerCondition {
    ghost holds_at: { Database → KeyOfCustomer → Type 0 };

    /// Whether it holds at a customer.
    fn holds(tables: &Tables, sums: &Sums, walks: &mut CustomerWalks<'_>, key: &CustomerKey) -> bool
        requires sums { AreSumsOf (database tables.now) sums.now }
        requires walks { AreWalksOf tables.now sums.now walks.old }
        ensures walks { AreWalksOf tables.now sums.now walks.new }
        ensures answer { IsTrue result ↔ holds_at (database tables.now) key.now };
}

/// C_BALANCE is what was delivered minus the sum of H_AMOUNT (TPC-C 3.3.2.10).
pub struct Condition10;

impl CustomerCondition for Condition10 {
    ghost holds_at = { Condition10At };

    fn holds(
        tables: &Tables,
        sums: &Sums,
        walks: &mut CustomerWalks<'_>,
        key: &CustomerKey,
    ) -> bool {
        let owed = owed(tables, sums, walks, key);
        let balance = amount(balance(&mut walks.customers, key));
        equal(balance, owed)
    }
}

/// C_BALANCE + C_YTD_PAYMENT is what was delivered (TPC-C 3.3.2.12).
pub struct Condition12;

impl CustomerCondition for Condition12 {
    ghost holds_at = { Condition12At };

    fn holds(
        _tables: &Tables,
        _sums: &Sums,
        walks: &mut CustomerWalks<'_>,
        key: &CustomerKey,
    ) -> bool {
        let balance = balance(&mut walks.customers, key);
        let paid = paid(&mut walks.customers, key);
        let delivered = amount_along(&mut walks.delivered, key);
        equal(both(balance, paid), delivered)
    }
}

/// What was delivered to a customer minus what it paid.
fn owed(tables: &Tables, sums: &Sums, walks: &mut CustomerWalks<'_>, key: &CustomerKey) -> i128
    requires sums { AreSumsOf (database tables.now) sums.now }
    requires walks { AreWalksOf tables.now sums.now walks.old }
    ensures walks { AreWalksOf tables.now sums.now walks.new }
    ensures amount { result ≡ delivered_amount (database tables.now) key.now
        -ℤ paid_by_customer (database tables.now) key.now }
{
    let delivered = amount_along(&mut walks.delivered, key);
    let paid = amount_along(&mut walks.history, key);
    difference(delivered, paid)
}

/// Two amounts together.
fn both(one: Cents, other: Cents) -> i128
    ensures { result ≡ one +ℤ other }
{
    i128::from(one.amount()) + i128::from(other.amount())
}
