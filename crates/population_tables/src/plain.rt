//! The rows of the plain population, in which no column is drawn.

ghost use Rattle.std.specs.Prelude.{◌≡◌, ◌≤◌, ◌*◌, pos};
ghost use Rattle.population_tables.specs.Plain.{plain_history_row, delivered_orders};
ghost use Rattle.population_tables.specs.First.{Plain as PlainKind};

use crate::source::Source;
use money::{Cents, Rate};
use tables::{
    Credit, Customer, District, History, Item, LineKey, Order, OrderLine, Scale, Stock, Warehouse,
};

/// The source of the plain population.
#[derive(Drop)]
pub struct Plain;

impl Source for Plain {
    ghost kind = { PlainKind };

    /// I_PRICE goes from 1.00 to 100.00 and begins anew.
    fn item(&mut self, item: u32) -> Item {
        Item {
            price: Cents::new(i64::from(((item - 1) % 100 + 1) * 100)),
        }
    }

    /// W_TAX is 0.1000.
    fn warehouse(&mut self, scale: Scale) -> Warehouse {
        Warehouse {
            tax: rate(1_000),
            year_to_date: paid_in_warehouse(scale),
        }
    }

    /// S_QUANTITY is 50, and nothing has been ordered.
    fn stock(&mut self) -> Stock {
        Stock {
            quantity: 50,
            year_to_date: 0,
            orders: 0,
            remote_orders: 0,
        }
    }

    /// D_TAX is 0.0500.
    fn district(&mut self, scale: Scale) -> District {
        District {
            tax: rate(500),
            year_to_date: paid_in_district(scale),
            next_order: scale.customers() + 1,
        }
    }

    /// A customer that has paid 10.00 and bought nothing. Each tenth has bad credit.
    fn customer(&mut self, customer: u32) -> Customer {
        Customer {
            first_name: 9_999 - customer,
            last_name: (customer - 1) % 1_000,
            credit: if customer % 10 == 0 {
                Credit::Bad
            } else {
                Credit::Good
            },
            discount: rate(1_000),
            balance: Cents::new(-1_000),
            paid: Cents::new(1_000),
            payments: 1,
            deliveries: 0,
        }
    }

    /// Leaves them.
    fn arrange(&mut self, _customers: &mut [u32]) {}

    /// The order of the customer of the same number, who stands there: of five lines, all from the warehouse itself.
    fn order(&mut self, scale: Scale, order: u32, _customer: u32) -> Order {
        Order {
            customer: order,
            entry_date: 1,
            carrier: if order <= delivered(scale) {
                Some(1)
            } else {
                None
            },
            line_count: 5,
            all_local: true,
        }
    }

    /// The line that orders 5 of the item of its number. A delivered line costs nothing (TPC-C 4.3.3.1, OL_AMOUNT).
    fn line(&mut self, scale: Scale, key: LineKey) -> OrderLine {
        let is_delivered = key.order <= delivered(scale);
        OrderLine {
            item: key.line,
            supply_warehouse: key.warehouse,
            delivery_date: if is_delivered { Some(1) } else { None },
            quantity: 5,
            amount: Cents::new(if is_delivered {
                0
            } else {
                i64::from(key.line * 100)
            }),
        }
    }
}

/// W_YTD: the sum of the districts' D_YTD.
pub fn paid_in_warehouse(scale: Scale) -> Cents
    ensures { result ≡ pos (scale.districts * (scale.customers * 1000)) }
{
    let paid = scale.districts() * (scale.customers() * 1_000);
    Cents::new(i64::from(paid))
}

/// D_YTD: the sum of the customers' payments.
pub fn paid_in_district(scale: Scale) -> Cents
    ensures { result ≡ pos (scale.customers * 1000) }
{
    Cents::new(i64::from(scale.customers() * 1_000))
}

/// The payment of 10.00 by a customer to its own district, which no population draws.
pub fn history_row(warehouse: u32, district: u32, customer: u32) -> History
    ensures { result ≡ plain_history_row warehouse district customer }
{
    History {
        customer,
        customer_district: district,
        customer_warehouse: warehouse,
        district,
        warehouse,
        date: 1,
        amount: Cents::new(1_000),
    }
}

/// How many of a district's orders are delivered: those of the lowest numbers.
pub fn delivered(scale: Scale) -> u32
    ensures { result ≡ delivered_orders scale }
{
    7 * scale.customers() / 10
}

/// A rate of at most 1.0000.
pub fn rate(ten_thousandths: u16) -> Rate
    requires { ten_thousandths ≤ 10000 }
    ensures { result ≡ ten_thousandths }
{
    Rate::new(ten_thousandths).unwrap()
}
