//! Whether each NEW-ORDER row and each line belongs to an order.

ghost use Rattle.std.specs.Prelude.{◌≡◌, ◌≤◌, ◌↔◌, IsTrue, Some, IsSome, is_some, true};
ghost use Rattle.std.specs.FinMap.{get};
ghost use Rattle.std.specs.BTreeMap.{is_at};
ghost use Rattle.std.specs.Map.{lookup};
ghost use Rattle.tables.specs.Keys.{order_cmp, order_of};
ghost use Rattle.tables.specs.Maps.{EachRow};
ghost use Rattle.tables.specs.Database.{database};
ghost use Rattle.tables.specs.Reach.{BelongToOrders};
ghost use Rattle.tables.specs.declared.rows.Order.{Order as OrderRow};
ghost use Rattle.conditions_reach.specs.Counted.{is_counted};

use crate::each_row::holds_of_each;
use conditions::RowCondition;
use conditions_walks::Walk;
use tables::{LineKey, NewOrder, Order, OrderKey, OrderLine, Tables};

/// Whether each NEW-ORDER row and each ORDER-LINE row has its order, and no line's number is above its order's
/// O_OL_CNT. In one pass over each of the two tables, beside one over ORDER.
pub fn belong_to_orders(tables: &Tables) -> bool
    ensures { IsTrue result ↔ BelongToOrders (database tables.now) }
{
    new_orders_belong(tables) && lines_belong(tables)
}

/// Whether each NEW-ORDER row has its order.
fn new_orders_belong(tables: &Tables) -> bool
    ensures { IsTrue result ↔ EachRow (λ k r. IsSome (get (database tables.now).orders k))
        (database tables.now).new_orders }
{
    let mut condition = NewOrderBelongs {
        orders: Walk::new(&tables.orders),
    };
    holds_of_each(&mut condition, &tables.new_orders)
}

/// Whether each line has its order, which counts it.
fn lines_belong(tables: &Tables) -> bool
    ensures { IsTrue result ↔ EachRow (λ k r. (order : OrderRow)
        × (get (database tables.now).orders (order_of k) ≡ Some order) × (k.line ≤ order.line_count))
        (database tables.now).lines }
{
    let mut condition = LineBelongs {
        orders: Walk::new(&tables.orders),
    };
    holds_of_each(&mut condition, &tables.lines)
}

/// A NEW-ORDER row has its order.
#[derive(Drop)]
struct NewOrderBelongs<'a> {
    orders: Walk<'a, OrderKey, Order>,
}

impl<'a> RowCondition<OrderKey, NewOrder> for NewOrderBelongs<'a> {
    ghost holds_of = { λ s k r. is_some (lookup (is_at (order_cmp k)) s.orders) ≡ true };

    fn holds(&mut self, key: &OrderKey, _row: &NewOrder) -> bool {
        has_order(&mut self.orders, key)
    }
}

/// A line has its order, which counts it.
#[derive(Drop)]
struct LineBelongs<'a> {
    orders: Walk<'a, OrderKey, Order>,
}

impl<'a> RowCondition<LineKey, OrderLine> for LineBelongs<'a> {
    ghost holds_of = { λ s k r. is_counted k.line (lookup (is_at (order_cmp (order_of k))) s.orders) ≡ true };

    fn holds(&mut self, key: &LineKey, _row: &OrderLine) -> bool {
        counts(&mut self.orders, &key.order_key(), key.line)
    }
}

/// Whether there is this order.
fn has_order(orders: &mut Walk<'_, OrderKey, Order>, key: &OrderKey) -> bool
    ensures stays { orders.new ≡ orders.old }
    ensures answer { result ≡ is_some (lookup (is_at (order_cmp key.now)) orders.old) }
{
    orders.get(key).is_some()
}

/// Whether there is this order, of so many lines at least.
fn counts(orders: &mut Walk<'_, OrderKey, Order>, key: &OrderKey, line: u32) -> bool
    ensures stays { orders.new ≡ orders.old }
    ensures answer { result ≡ is_counted line (lookup (is_at (order_cmp key.now)) orders.old) }
{
    match orders.get(key) {
        Some(order) => line <= order.line_count,
        None => false,
    }
}
