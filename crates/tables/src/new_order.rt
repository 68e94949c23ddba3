//! New-Order (TPC-C 2.4): its input and its reply. What it does to the tables is in `specs/NewOrder.antt`.

ghost use Rattle.std.specs.Prelude.{◌≡◌, ◌↔◌, IsTrue, IfOk, All};
ghost use Rattle.tables.specs.NewOrder.{IsRequestedLine};

use crate::keys::{CustomerKey, DistrictKey};
use crate::limits::{MAX_DATE, MAX_ORDER_LINES, MAX_QUANTITY, MAX_REQUESTED_ITEM, MIN_ORDER_LINES};
use crate::order_lines::Lines;
use crate::scale::{Scale, is_between};
use money::Cents;
use std::alloc::AllocError;

/// A line that a terminal orders (TPC-C 2.4.1.5).
#[derive(Clone, Copy, Debug, PartialEq, Eq)]
pub struct RequestedLine {
    /// OL_I_ID. An item that isn't in ITEM rolls the order back.
    pub item: u32,
    /// OL_SUPPLY_W_ID.
    pub supply_warehouse: u32,
    /// OL_QUANTITY.
    pub quantity: u32,
}

/// A New-Order's input (TPC-C 2.4.1): the customer, its district, and the lines, with the date that the order gets.
#[derive(Debug, Drop, PartialEq)]
pub struct NewOrderInput {
    pub date: u32,
    pub warehouse: u32,
    pub district: u32,
    pub customer: u32,
    pub lines: Lines<RequestedLine>,
}

/// A line of a New-Order's reply.
#[derive(Clone, Copy, Debug, PartialEq, Eq)]
pub struct SuppliedLine {
    pub item: u32,
    pub supply_warehouse: u32,
    /// S_QUANTITY after this line.
    pub stock: u32,
    /// OL_AMOUNT.
    pub amount: Cents,
}

/// A New-Order's reply (TPC-C 2.4.3.3): the order's number and customer, the sum of its lines and its total amount,
/// and the lines.
#[derive(Debug, Drop, PartialEq)]
pub struct NewOrderReply {
    pub warehouse: u32,
    pub district: u32,
    pub order: u32,
    pub customer: u32,
    pub amount: Cents,
    pub total: Cents,
    pub lines: Lines<SuppliedLine>,
}

impl RequestedLine {
    /// Whether each field is in its range.
    fn is_in_range(&self, scale: &Scale) -> bool
        ensures { IsTrue result ↔ IsRequestedLine scale.now self.now }
    {
        is_between(1, MAX_REQUESTED_ITEM, self.item)
            && is_between(1, scale.warehouses(), self.supply_warehouse)
            && is_between(1, MAX_QUANTITY, self.quantity)
    }
}

/// Whether each field of each line is in its range.
fn are_in_range(scale: &Scale, lines: &[RequestedLine]) -> bool
    ensures { IsTrue result ↔ All (IsRequestedLine scale.now) lines.now }
{
    lines.iter().all(|line| line.is_in_range(scale))
}

impl NewOrderInput {
    ghost use Rattle.tables.specs.NewOrder.{IsNewOrder, home, buyer};

    /// The district where the order is made.
    pub fn home(&self) -> DistrictKey
        ensures { result ≡ home self.now }
    {
        DistrictKey {
            warehouse: self.warehouse,
            district: self.district,
        }
    }

    /// The customer who orders.
    pub fn buyer(&self) -> CustomerKey
        ensures { result ≡ buyer self.now }
    {
        self.home().customer_key(self.customer)
    }

    /// Whether each field is in its range: warehouses, the district and the customer within the scale, the date from
    /// 1 to 4,000,000,000, 5 to 15 lines, each in its range.
    pub(crate) fn is_in_range(&self, scale: &Scale) -> bool
        ensures { IsTrue result ↔ IsNewOrder scale.now self.now }
    {
        let lines = self.lines.as_slice();
        is_between(1, MAX_DATE, self.date)
            && is_between(1, scale.warehouses(), self.warehouse)
            && is_between(1, scale.districts(), self.district)
            && is_between(1, scale.customers(), self.customer)
            && MIN_ORDER_LINES as usize <= lines.len()
            && lines.len() <= MAX_ORDER_LINES as usize
            && are_in_range(scale, lines)
    }
}

impl NewOrderReply {
    /// A copy. Costs a pass over the lines, and memory for them.
    pub(crate) fn copied(&self) -> Result<NewOrderReply, AllocError>
        ensures { IfOk result (λ copy. copy ≡ self.now) }
    {
        let lines = self.lines.copied()?;
        Ok(NewOrderReply {
            warehouse: self.warehouse,
            district: self.district,
            order: self.order,
            customer: self.customer,
            amount: self.amount,
            total: self.total,
            lines,
        })
    }
}
