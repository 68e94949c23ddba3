//! Delivery (TPC-C 2.7): its input and its reply. What it does to the tables is in `specs/Delivery.antt`.

ghost use Rattle.std.specs.Prelude.{◌≡◌, ◌↔◌, IsTrue, IfOk};

use crate::keys::DistrictKey;
use crate::limits::{MAX_CARRIER, MAX_DATE};
use crate::order_lines::Lines;
use crate::scale::{Scale, is_between};
use std::alloc::AllocError;

/// A Delivery's input (TPC-C 2.7.1): the warehouse whose districts are done, the carrier, and the date that the lines
/// get.
#[derive(Clone, Copy, Debug, PartialEq, Eq)]
pub struct DeliveryInput {
    pub date: u32,
    pub warehouse: u32,
    pub carrier: u32,
}

/// What a Delivery did in a district: the order that it delivered, or nothing where none waited.
#[derive(Clone, Copy, Debug, PartialEq, Eq)]
pub struct DeliveredOrder {
    pub district: u32,
    pub order: Option<u32>,
}

/// A Delivery's reply (TPC-C 2.7.3): each district of the warehouse, in the order of their numbers.
#[derive(Debug, Drop, PartialEq)]
pub struct DeliveryReply {
    pub warehouse: u32,
    pub orders: Lines<DeliveredOrder>,
}

impl DeliveryInput {
    ghost use Rattle.tables.specs.Delivery.{IsDelivery};

    /// A district of the warehouse.
    pub fn district_key(&self, district: u32) -> DistrictKey
        ensures { result ≡ record { warehouse = self.now.warehouse; district = district } }
    {
        DistrictKey {
            warehouse: self.warehouse,
            district,
        }
    }

    /// Whether each field is in its range: the date from 1 to 4,000,000,000, the warehouse within the scale, the
    /// carrier from 1 to 10.
    pub(crate) fn is_in_range(&self, scale: &Scale) -> bool
        ensures { IsTrue result ↔ IsDelivery scale.now self.now }
    {
        is_between(1, MAX_DATE, self.date)
            && is_between(1, scale.warehouses(), self.warehouse)
            && is_between(1, MAX_CARRIER, self.carrier)
    }
}

impl DeliveryReply {
    /// A copy. Costs a pass over the districts, and memory for them.
    pub(crate) fn copied(&self) -> Result<DeliveryReply, AllocError>
        ensures { IfOk result (λ copy. copy ≡ self.now) }
    {
        let orders = self.orders.copied()?;
        Ok(DeliveryReply {
            warehouse: self.warehouse,
            orders,
        })
    }
}
