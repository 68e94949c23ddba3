//! A drawn order.

ghost use Rattle.std.specs.Prelude.{◌≡◌, ◌≤◌, IfOk};
ghost use Rattle.tables.specs.declared.limits.TheConstants.{MAX_ORDER_LINES};
ghost use Rattle.terminals_deck.specs.Order.{new_order_of};

use std::alloc::{AllocError, Global};
use tables::limits::MAX_ORDER_LINES;
use tables::{Input, Lines, NewOrderInput, RequestedLine};

/// The most lines of an order.
pub const MOST_LINES: usize = MAX_ORDER_LINES as usize;

/// A New-Order's input, with room for the most lines that an order has. The first `count` of them are its own.
#[derive(Clone, Copy)]
pub struct DrawnOrder {
    pub date: u32,
    pub warehouse: u32,
    pub district: u32,
    pub customer: u32,
    pub count: u32,
    pub lines: [RequestedLine; MOST_LINES],
}

impl DrawnOrder {
    /// The input. Takes memory for its lines.
    pub fn into_input(self, alloc: Global) -> Result<Input, AllocError>
        requires { self.count ≤ MAX_ORDER_LINES }
        ensures { IfOk result (λ input. input ≡ Input.NewOrder (new_order_of self)) }
    {
        let lines = Vec::from_slice(alloc, &self.lines.as_slice()[..self.count as usize])?;
        Ok(Input::NewOrder(NewOrderInput {
            date: self.date,
            warehouse: self.warehouse,
            district: self.district,
            customer: self.customer,
            lines: Lines::new(lines),
        }))
    }
}
