//! The conditions that are asked of each row of a table.

ghost use Rattle.std.specs.Prelude.{◌≡◌, ℤ, pos, ◌↔◌, IsTrue, Bool, is_some, is_none, true, IsSome, unwrap_or};
ghost use Rattle.std.specs.Option.{option_map_or};
ghost use Rattle.std.specs.FinMap.{get};
ghost use Rattle.std.specs.BTreeMap.{is_at};
ghost use Rattle.std.specs.Map.{lookup};
ghost use Rattle.tables.specs.Keys.{order_cmp, line_cmp, order_of};
ghost use Rattle.tables.specs.Database.{database};
ghost use Rattle.tables.specs.Conditions.{Condition5At, Condition6At, Condition7At};
ghost use Rattle.conditions.specs.Finds.{FindsLeast};
ghost use Rattle.conditions.specs.Sums.{AreLineSumsOf};

use crate::amounts::{amount_along, equal};
use crate::columns::is_without_carrier;
use crate::lines::LineSums;
use crate::search::least_row;
use conditions_walks::Walk;
use tables::{LineKey, NewOrder, Order, OrderKey, OrderLine, Tables};

/// A condition that is asked of each row of a table, with its key, in the order of the keys. Its value is what it looks
/// into.
pub trait RowCondition<K, X> {
    ghost holds_of: { Self → K → X → Type 0 };

    /// Whether it holds of a row.
    fn holds(&mut self, key: &K, row: &X) -> bool
        ensures stays { self.new ≡ self.old }
        ensures answer { IsTrue result ↔ holds_of self.old key.now row.now };
}

/// O_CARRIER_ID is null exactly where the order has a NEW-ORDER row (TPC-C 3.3.2.5).
#[derive(Drop)]
pub struct Condition5<'a> {
    new_orders: Walk<'a, OrderKey, NewOrder>,
}

impl<'a> RowCondition<OrderKey, Order> for Condition5<'a> {
    ghost holds_of = { λ s k order. is_none order.carrier ≡ is_some (lookup (is_at (order_cmp k)) s.new_orders) };

    fn holds(&mut self, key: &OrderKey, row: &Order) -> bool {
        same(row.carrier.is_none(), is_new(&mut self.new_orders, key))
    }
}

impl<'a> Condition5<'a> {
    /// The least order that breaks it.
    pub fn least(tables: &'a Tables) -> Option<OrderKey>
        ensures { FindsLeast order_cmp (λ k. IsSome (get (database tables.now).orders k))
            (Condition5At (database tables.now)) result }
    {
        let mut condition = Condition5 {
            new_orders: Walk::new(&tables.new_orders),
        };
        least_row(&mut condition, &tables.orders)
    }
}

/// O_OL_CNT is the number of the order's ORDER-LINE rows (TPC-C 3.3.2.6).
#[derive(Drop)]
pub struct Condition6<'a> {
    /// The number of rows of each.
    lines: Walk<'a, OrderKey, i128>,
}

impl<'a> RowCondition<OrderKey, Order> for Condition6<'a> {
    ghost holds_of = { λ s k order. pos order.line_count ≡ unwrap_or (lookup (is_at (order_cmp k)) s.lines) (pos 0) };

    fn holds(&mut self, key: &OrderKey, row: &Order) -> bool {
        equal(
            i128::from(row.line_count),
            amount_along(&mut self.lines, key),
        )
    }
}

impl<'a> Condition6<'a> {
    /// The least order that breaks it.
    pub fn least(tables: &Tables, sums: &'a LineSums) -> Option<OrderKey>
        requires { AreLineSumsOf (database tables.now) sums.now }
        ensures { FindsLeast order_cmp (λ k. IsSome (get (database tables.now).orders k))
            (Condition6At (database tables.now)) result }
    {
        let mut condition = Condition6 {
            lines: Walk::new(&sums.orders),
        };
        least_row(&mut condition, &tables.orders)
    }
}

/// OL_DELIVERY_D is null exactly where the order's O_CARRIER_ID is (TPC-C 3.3.2.7).
#[derive(Drop)]
pub struct Condition7<'a> {
    orders: Walk<'a, OrderKey, Order>,
}

impl<'a> RowCondition<LineKey, OrderLine> for Condition7<'a> {
    ghost holds_of = { λ s k line. is_none line.delivery_date
        ≡ option_map_or (λ order. is_none order.carrier) (lookup (is_at (order_cmp (order_of k))) s.orders) true };

    fn holds(&mut self, key: &LineKey, row: &OrderLine) -> bool {
        same(
            row.delivery_date.is_none(),
            is_without_carrier(&mut self.orders, &key.order_key()),
        )
    }
}

impl<'a> Condition7<'a> {
    /// The least line that breaks it.
    pub fn least(tables: &'a Tables) -> Option<LineKey>
        ensures { FindsLeast line_cmp (λ k. IsSome (get (database tables.now).lines k))
            (Condition7At (database tables.now)) result }
    {
        let mut condition = Condition7 {
            orders: Walk::new(&tables.orders),
        };
        least_row(&mut condition, &tables.lines)
    }
}

/// Whether an order has a NEW-ORDER row.
fn is_new(new_orders: &mut Walk<'_, OrderKey, NewOrder>, key: &OrderKey) -> bool
    ensures stays { new_orders.new ≡ new_orders.old }
    ensures answer { result ≡ is_some (lookup (is_at (order_cmp key.now)) new_orders.old) }
{
    new_orders.get(key).is_some()
}

/// Whether two answers are one.
fn same(one: bool, other: bool) -> bool
    ensures { IsTrue result ↔ (one ≡ other) }
{
    one == other
}
