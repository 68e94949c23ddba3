//! Order-Statuses and Stock-Levels of the first warehouse, and what they are told.
ghost use Rattle.std.specs.Prelude.{IfOk};
ghost use Rattle.tables.specs.Inputs.{IsInput};

use crate::told::{Status, Told};
use money::{Cents, Refusal};
use tables::{Input, OrderStatusInput, Scale, StockLevelInput, Who};

/// An Order-Status of a customer of district 1.
pub(crate) fn order_status(scale: &Scale, customer: u32) -> Result<Input, Refusal>
    ensures { IfOk result (IsInput scale.now) }
{
    let query = OrderStatusInput {
        date: 7,
        warehouse: 1,
        district: 1,
        who: Who::Id(customer),
    };
    Input::order_status(scale, query)
}

/// A Stock-Level of a district, with the threshold 15.
pub(crate) fn stock_level(scale: &Scale, district: u32) -> Result<Input, Refusal>
    ensures { IfOk result (IsInput scale.now) }
{
    let query = StockLevelInput {
        date: 7,
        warehouse: 1,
        district,
        threshold: 15,
    };
    Input::stock_level(scale, query)
}

/// A balance of -10.00, and a last order of this number, if there is one.
pub(crate) fn status_told(order: Option<u32>) -> Told {
    Told::Status(Status {
        balance: Cents::new(-1_000),
        order,
    })
}
