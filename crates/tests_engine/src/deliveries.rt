//! Deliveries of the first warehouse, and what they are told.
ghost use Rattle.std.specs.Prelude.{IfOk};
ghost use Rattle.tables.specs.Inputs.{IsInput};

use crate::told::{Delivered, Told};
use money::Refusal;
use tables::{DeliveredOrder, DeliveryInput, Input, Scale};

/// A Delivery by carrier 4, of date 7.
pub(crate) fn delivery(scale: &Scale) -> Result<Input, Refusal>
    ensures { IfOk result (IsInput scale.now) }
{
    let delivery = DeliveryInput {
        date: 7,
        warehouse: 1,
        carrier: 4,
    };
    Input::delivery(scale, delivery)
}

/// That the order of this number was delivered in each of the two districts.
pub(crate) fn delivery_told(order: u32) -> Told {
    let delivered = |district: u32| {
        Some(DeliveredOrder {
            district,
            order: Some(order),
        })
    };
    Told::Delivery(Delivered {
        warehouse: 1,
        districts: 2,
        orders: [delivered(1), delivered(2)],
    })
}
