//! What a Payment of a customer with bad credit makes of the customer's text.
ghost use Rattle.std.specs.Prelude.{◌≡◌, ℕ, List, IfOk};
ghost use Rattle.customer_data.specs.Text.{IsData, put_left};
ghost use Rattle.customer_data.specs.Words.{data_words};
ghost use Rattle.customer_data.specs.Payments.{payment_text};

use crate::words::{DataWords, with_front};
use money::Cents;
use std::alloc::{AllocError, Global};
use std::fmt;

/// What a Payment tells a customer's text of itself: C_ID, C_D_ID and C_W_ID of the customer, D_ID and W_ID of the
/// district that is paid, and H_AMOUNT (TPC-C 2.5.2.2). Its text has them in this order, parted by blanks, and a bar at
/// its end.
#[derive(Clone, Copy, Debug, PartialEq, Eq)]
pub struct PaymentText {
    pub customer: u32,
    pub customer_district: u32,
    pub customer_warehouse: u32,
    pub district: u32,
    pub warehouse: u32,
    pub amount: Cents,
}

impl fmt::Display for PaymentText {
    ghost use Rattle.std.specs.Prelude.{Some};
    ghost use Rattle.customer_data.specs.Payments.{payment_text};

    ghost output = { λ payment. Some (payment_text payment) };

    fn fmt<W: fmt::Write>(&self, f: &mut fmt::Formatter<W>) -> fmt::Result {
        write!(
            f,
            "{} {} {} {} {} {}|",
            self.customer,
            self.customer_district,
            self.customer_warehouse,
            self.district,
            self.warehouse,
            self.amount
        )
    }
}

/// The words of a customer's text after a Payment, by those before it: its text at the left of that, and what then
/// stands beyond 500 characters at the right is lost (TPC-C 2.5.2.2). Takes memory for the Payment's text.
pub fn data_after(
    alloc: Global,
    words: &DataWords,
    payment: &PaymentText,
) -> Result<DataWords, AllocError>
    ensures { (text : List ℕ) → IsData text → words.now ≡ data_words text
        → IfOk result (λ after. after ≡ data_words (put_left (payment_text payment.now) text)) }
{
    let front = format!(in alloc; "{payment}")?;
    Ok(with_front(words, front.as_bytes()))
}
