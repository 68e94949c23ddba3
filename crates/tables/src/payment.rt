//! Payment (TPC-C 2.5): its input and its reply. What it does to the tables is in `specs/Payment.antt`.

ghost use Rattle.std.specs.Prelude.{◌↔◌, IsTrue};

use crate::customer::Who;
use crate::keys::{CustomerKey, DistrictKey};
use crate::limits::{MAX_DATE, MAX_PAYMENT, MIN_PAYMENT};
use crate::scale::{Scale, is_between};
use money::Cents;

/// A Payment's input (TPC-C 2.5.1): the paying district, the customer, and H_AMOUNT, with the date that
/// its HISTORY row gets.
#[derive(Clone, Copy, Debug, PartialEq, Eq)]
pub struct PaymentInput {
    pub date: u32,
    pub warehouse: u32,
    pub district: u32,
    pub customer_warehouse: u32,
    pub customer_district: u32,
    pub who: Who,
    pub amount: Cents,
}

/// A Payment's reply (TPC-C 2.5.3.3): the paying district, the customer, and C_BALANCE after the payment.
#[derive(Clone, Copy, Debug, PartialEq, Eq)]
pub struct PaymentReply {
    pub warehouse: u32,
    pub district: u32,
    pub customer_warehouse: u32,
    pub customer_district: u32,
    pub customer: u32,
    pub balance: Cents,
}

impl PaymentInput {
    ghost use Rattle.std.specs.Prelude.{◌≡◌};
    ghost use Rattle.tables.specs.Payment.{IsPayment, payer};

    /// The district where the payment is made.
    pub fn home(&self) -> DistrictKey
        ensures { result ≡ record { warehouse = self.now.warehouse; district = self.now.district } }
    {
        DistrictKey {
            warehouse: self.warehouse,
            district: self.district,
        }
    }

    /// The district of the customer who pays.
    pub fn customer_home(&self) -> DistrictKey
        ensures { result ≡ record { warehouse = self.now.customer_warehouse; district = self.now.customer_district } }
    {
        DistrictKey {
            warehouse: self.customer_warehouse,
            district: self.customer_district,
        }
    }

    /// This customer, as the one who pays.
    pub fn payer(&self, customer: u32) -> CustomerKey
        ensures { result ≡ payer self.now customer }
    {
        self.customer_home().customer_key(customer)
    }

    /// Whether each field is in its range: warehouses and districts within the scale, the customer one who may be
    /// meant, the date from 1 to 4,000,000,000, the amount from 1.00 to 5,000.00.
    pub(crate) fn is_in_range(&self, scale: &Scale) -> bool
        ensures { IsTrue result ↔ IsPayment scale.now self.now }
    {
        is_between(1, MAX_DATE, self.date)
            && is_between(1, scale.warehouses(), self.warehouse)
            && is_between(1, scale.districts(), self.district)
            && is_between(1, scale.warehouses(), self.customer_warehouse)
            && is_between(1, scale.districts(), self.customer_district)
            && self.who.is_in_range(scale)
            && Cents::new(MIN_PAYMENT) <= self.amount
            && self.amount <= Cents::new(MAX_PAYMENT)
    }
}
