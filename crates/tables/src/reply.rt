//! What a terminal is told, one module a transaction: here is only which there are.

ghost use Rattle.std.specs.Prelude.{◌≡◌, IfOk};

use crate::delivery::DeliveryReply;
use crate::new_order::NewOrderReply;
use crate::order_status::OrderStatusReply;
use crate::payment::PaymentReply;
use crate::stock_level::StockLevelReply;
use std::alloc::AllocError;

/// The reply to a committed transaction.
#[derive(Debug, Drop, PartialEq)]
pub enum Reply {
    Payment(PaymentReply),
    NewOrder(NewOrderReply),
    Delivery(DeliveryReply),
    OrderStatus(OrderStatusReply),
    StockLevel(StockLevelReply),
}

impl Reply {
    /// A copy. Takes memory only for an order's lines or a delivery's districts, and costs a pass over them.
    pub fn copied(&self) -> Result<Reply, AllocError>
        ensures { IfOk result (λ copy. copy ≡ self.now) }
    {
        match self {
            Reply::Payment(reply) => Ok(Reply::Payment(*reply)),
            Reply::NewOrder(reply) => Ok(Reply::NewOrder(reply.copied()?)),
            Reply::Delivery(reply) => Ok(Reply::Delivery(reply.copied()?)),
            Reply::OrderStatus(reply) => Ok(Reply::OrderStatus(reply.copied()?)),
            Reply::StockLevel(reply) => Ok(Reply::StockLevel(*reply)),
        }
    }
}
