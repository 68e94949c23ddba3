//! New-Orders of customers of district 1, and what they are told.
ghost use Rattle.std.specs.Prelude.{IfOk};
ghost use Rattle.tables.specs.Inputs.{IsInput};

use crate::told::{Ordered, Told};
use money::{Cents, Refusal};
use std::alloc::Global;
use tables::{Input, Lines, NewOrderInput, RequestedLine, Scale};

/// A line that its own warehouse supplies.
pub(crate) fn line(item: u32, quantity: u32) -> RequestedLine {
    RequestedLine {
        item,
        supply_warehouse: 1,
        quantity,
    }
}

/// Lines of items 1 to 4 and of this last one.
pub(crate) fn five(last: u32, quantity: u32) -> [RequestedLine; 5] {
    [
        line(1, quantity),
        line(2, quantity),
        line(3, quantity),
        line(4, quantity),
        line(last, quantity),
    ]
}

/// A New-Order of these lines.
pub(crate) fn new_order(
    alloc: Global,
    scale: &Scale,
    customer: u32,
    lines: &[RequestedLine],
) -> Result<Input, Refusal>
    ensures { IfOk result (IsInput scale.now) }
{
    let lines = Vec::from_slice(alloc, lines)?;
    let order = NewOrderInput {
        date: 1,
        warehouse: 1,
        district: 1,
        customer,
        lines: Lines::new(lines),
    };
    Input::new_order(scale, order)
}

/// An order of this number, whose lines sum to this amount, with this total.
pub(crate) fn order_told(number: u32, amount: i64, total: i64) -> Told {
    Told::Order(Ordered {
        number,
        amount: Cents::new(amount),
        total: Cents::new(total),
    })
}
