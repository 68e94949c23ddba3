//! The rows that a New-Order adds (TPC-C 2.4.2.2).
ghost use Rattle.std.specs.Prelude.{◌≡◌, ◌≤◌, ◌==◌, length};
ghost use Rattle.std.specs.List.{list_all};
ghost use Rattle.tables.specs.Database.{Database};
ghost use Rattle.tables.specs.NewOrder.{order_row, line_row, line_amount};
ghost use Rattle.tables.specs.declared.limits.TheConstants.{MAX_ORDER_LINES};

use money::Cents;
use tables::{NewOrderInput, Order, OrderLine, RequestedLine};

/// The order's row: not delivered, and O_ALL_LOCAL exactly where its warehouse supplies each line. Costs a pass over
/// the lines.
pub(crate) fn order_row(order: &NewOrderInput) -> Order
    requires { length order.now.lines ≤ MAX_ORDER_LINES }
    ensures { result ≡ order_row order.now }
{
    let lines = order.lines.as_slice();
    Order {
        customer: order.customer,
        entry_date: order.date,
        carrier: None,
        line_count: lines.len() as u32,
        all_local: are_local(order.warehouse, lines),
    }
}

/// Whether this warehouse supplies each of the lines.
fn are_local(warehouse: u32, lines: &[RequestedLine]) -> bool
    ensures { result ≡ list_all (λ l. l.supply_warehouse == warehouse) lines.now }
{
    lines.iter().all(|line| line.supply_warehouse == warehouse)
}

/// A line's row, which has this amount: not delivered.
pub(crate) fn line_row(line: &RequestedLine, amount: Cents) -> OrderLine
    ensures { (t : Database) → amount ≡ line_amount t line.now → result ≡ line_row t line.now }
{
    OrderLine {
        item: line.item,
        supply_warehouse: line.supply_warehouse,
        delivery_date: None,
        quantity: line.quantity,
        amount,
    }
}
