//! A drawn input, before memory is taken for it.

ghost use Rattle.std.specs.Prelude.{◌≡◌, IfOk};
ghost use Rattle.terminals_deck.specs.Drawn.{HasLineRoom, input_of};

use crate::order::DrawnOrder;
use std::alloc::{AllocError, Global};
use tables::{DeliveryInput, Input, OrderStatusInput, PaymentInput, StockLevelInput};

/// An input that was drawn, of one of the five kinds.
#[derive(Clone, Copy)]
pub enum Drawn {
    NewOrder(DrawnOrder),
    Payment(PaymentInput),
    OrderStatus(OrderStatusInput),
    Delivery(DeliveryInput),
    StockLevel(StockLevelInput),
}

impl Drawn {
    /// The input. Takes memory for the lines of a New-Order.
    pub fn into_input(self, alloc: Global) -> Result<Input, AllocError>
        requires { HasLineRoom self }
        ensures { IfOk result (λ input. input ≡ input_of self) }
    {
        match self {
            Drawn::NewOrder(order) => order.into_input(alloc),
            Drawn::Payment(payment) => Ok(Input::Payment(payment)),
            Drawn::OrderStatus(query) => Ok(Input::OrderStatus(query)),
            Drawn::Delivery(delivery) => Ok(Input::Delivery(delivery)),
            Drawn::StockLevel(query) => Ok(Input::StockLevel(query)),
        }
    }
}
