//! Payments of customers of district 1 to that district, and what they leave.

use crate::told::Told;
use money::Cents;
use tables::{History, PaymentInput, PaymentReply, Who};

/// A Payment's input.
pub(crate) fn payment(customer: u32, amount: i64) -> PaymentInput {
    PaymentInput {
        date: 1,
        warehouse: 1,
        district: 1,
        customer_warehouse: 1,
        customer_district: 1,
        who: Who::Id(customer),
        amount: Cents::new(amount),
    }
}

/// The HISTORY row of that Payment.
pub(crate) fn history_row(customer: u32, amount: i64) -> History {
    History {
        customer,
        customer_district: 1,
        customer_warehouse: 1,
        district: 1,
        warehouse: 1,
        date: 1,
        amount: Cents::new(amount),
    }
}

/// What is told of one that leaves this balance.
pub(crate) fn payment_told(customer: u32, balance: i64) -> Told {
    Told::Payment(PaymentReply {
        warehouse: 1,
        district: 1,
        customer_warehouse: 1,
        customer_district: 1,
        customer,
        balance: Cents::new(balance),
    })
}
