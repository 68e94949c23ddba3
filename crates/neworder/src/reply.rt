//! The reply of a New-Order (TPC-C 2.4.3.3).
ghost use Rattle.std.specs.Prelude.{◌≡◌, ◌≤ℤ◌, pos};
ghost use Rattle.money.specs.Total.{total_amount};
ghost use Rattle.population.specs.Initial.{initial};
ghost use Rattle.neworder.specs.Replied.{order_reply_of};

use money::{Cents, total};
use population::Population;
use tables::{Lines, NewOrderInput, NewOrderReply, OrderKey, SuppliedLine};

/// The reply for an order of this key, with these lines, whose amounts have this sum. Its total takes the discount and
/// the taxes, which never change, from the population.
pub(crate) fn reply_to(
    population: &Population,
    order: &NewOrderInput,
    key: OrderKey,
    sum: Cents,
    supplied: Vec<SuppliedLine>,
) -> NewOrderReply
    requires low { pos 0 ≤ℤ sum }
    requires high { sum ≤ℤ pos 1500000 }
    ensures { result ≡ order_reply_of (initial population.now) order.now key sum supplied.items }
{
    let discount = population.discount(order.buyer());
    let warehouse_tax = population.warehouse_tax(order.warehouse);
    let district_tax = population.district_tax(order.home());
    NewOrderReply {
        warehouse: order.warehouse,
        district: order.district,
        order: key.order,
        customer: order.customer,
        amount: sum,
        total: total(sum, discount, warehouse_tax, district_tax),
        lines: Lines::new(supplied),
    }
}
