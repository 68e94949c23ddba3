//! Order-Status (TPC-C 2.6): its input and its reply, which `specs/OrderStatus.antt` defines. It changes nothing.

ghost use Rattle.std.specs.Prelude.{◌≡◌, ◌↔◌, IsTrue, IfOk};

use crate::customer::Who;
use crate::keys::DistrictKey;
use crate::limits::MAX_DATE;
use crate::order_lines::Lines;
use crate::rows::OrderLine;
use crate::scale::{Scale, is_between};
use money::Cents;
use std::alloc::AllocError;

/// An Order-Status's input (TPC-C 2.6.1): the customer, and the date on which it is asked.
#[derive(Clone, Copy, Debug, PartialEq, Eq)]
pub struct OrderStatusInput {
    pub date: u32,
    pub warehouse: u32,
    pub district: u32,
    pub who: Who,
}

/// What is told of a customer's last order: O_ID, O_ENTRY_D, O_CARRIER_ID, and its lines in the order of their numbers.
#[derive(Debug, Drop, PartialEq)]
pub struct LastOrder {
    pub order: u32,
    pub entry_date: u32,
    /// None until the order is delivered.
    pub carrier: Option<u32>,
    pub lines: Lines<OrderLine>,
}

/// An Order-Status's reply (TPC-C 2.6.3.3): the customer, C_BALANCE, and its last order, if it has one.
#[derive(Debug, Drop, PartialEq)]
pub struct OrderStatusReply {
    pub warehouse: u32,
    pub district: u32,
    pub customer: u32,
    pub balance: Cents,
    pub order: Option<LastOrder>,
}

impl OrderStatusInput {
    ghost use Rattle.tables.specs.OrderStatus.{IsOrderStatus};

    /// The district of the customer who is asked for.
    pub fn home(&self) -> DistrictKey
        ensures { result ≡ record { warehouse = self.now.warehouse; district = self.now.district } }
    {
        DistrictKey {
            warehouse: self.warehouse,
            district: self.district,
        }
    }

    /// Whether each field is in its range: the date from 1 to 4,000,000,000, the district within the scale, the
    /// customer one who may be meant.
    pub(crate) fn is_in_range(&self, scale: &Scale) -> bool
        ensures { IsTrue result ↔ IsOrderStatus scale.now self.now }
    {
        is_between(1, MAX_DATE, self.date)
            && is_between(1, scale.warehouses(), self.warehouse)
            && is_between(1, scale.districts(), self.district)
            && self.who.is_in_range(scale)
    }
}

impl LastOrder {
    /// A copy. Costs a pass over the lines, and memory for them.
    fn copied(&self) -> Result<LastOrder, AllocError>
        ensures { IfOk result (λ copy. copy ≡ self.now) }
    {
        let lines = self.lines.copied()?;
        Ok(LastOrder {
            order: self.order,
            entry_date: self.entry_date,
            carrier: self.carrier,
            lines,
        })
    }
}

impl OrderStatusReply {
    /// A copy. Costs a pass over the order's lines, and memory for them.
    pub(crate) fn copied(&self) -> Result<OrderStatusReply, AllocError>
        ensures { IfOk result (λ copy. copy ≡ self.now) }
    {
        let order = match &self.order {
            Some(order) => Some(order.copied()?),
            None => None,
        };
        Ok(OrderStatusReply {
            warehouse: self.warehouse,
            district: self.district,
            customer: self.customer,
            balance: self.balance,
            order,
        })
    }
}
