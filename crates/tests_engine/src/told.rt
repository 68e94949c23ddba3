//! What terminals are told, as values that can be copied: one arm a transaction.

use money::Cents;
use tables::{DeliveredOrder, PaymentReply, Reply};

/// What a terminal is told of a transaction.
#[derive(Clone, Copy, Debug, PartialEq, Eq)]
pub(crate) enum Told {
    Payment(PaymentReply),
    Order(Ordered),
    Delivery(Delivered),
    Status(Status),
    /// How many items have a low stock.
    Level(u32),
}

/// What a terminal is told of an order: its number, the sum of its lines, and its total amount.
#[derive(Clone, Copy, Debug, PartialEq, Eq)]
pub(crate) struct Ordered {
    pub(crate) number: u32,
    pub(crate) amount: Cents,
    pub(crate) total: Cents,
}

/// What a terminal is told of a Delivery: its warehouse, how many districts, and what was delivered in the first two.
#[derive(Clone, Copy, Debug, PartialEq, Eq)]
pub(crate) struct Delivered {
    pub(crate) warehouse: u32,
    pub(crate) districts: usize,
    pub(crate) orders: [Option<DeliveredOrder>; 2],
}

/// What a terminal is told of a customer: C_BALANCE, and the number of the last order.
#[derive(Clone, Copy, Debug, PartialEq, Eq)]
pub(crate) struct Status {
    pub(crate) balance: Cents,
    pub(crate) order: Option<u32>,
}

/// What a reply tells.
pub(crate) fn told_of(reply: &Reply) -> Told {
    match reply {
        Reply::Payment(reply) => Told::Payment(*reply),
        Reply::NewOrder(reply) => Told::Order(Ordered {
            number: reply.order,
            amount: reply.amount,
            total: reply.total,
        }),
        Reply::Delivery(reply) => {
            let orders = reply.orders.as_slice();
            Told::Delivery(Delivered {
                warehouse: reply.warehouse,
                districts: orders.len(),
                orders: [orders.first().copied(), orders.get(1).copied()],
            })
        }
        Reply::OrderStatus(reply) => Told::Status(Status {
            balance: reply.balance,
            order: reply.order.as_ref().map(|order| order.order),
        }),
        Reply::StockLevel(reply) => Told::Level(reply.low),
    }
}
