//! The columns that change of WAREHOUSE, DISTRICT and CUSTOMER, whose rows have others besides.

ghost use Rattle.std.specs.Prelude.{◌≡◌};
ghost use Rattle.rows.specs.Reading.{IsReading};
ghost use Rattle.rows.specs.Columns.{warehouse_columns_words, AreWarehouseColumns};
ghost use Rattle.rows.specs.Columns.{district_columns_words, AreDistrictColumns};
ghost use Rattle.rows.specs.Columns.{customer_columns_words, AreCustomerColumns};

use crate::reading::{money, number};
use money::{Cents, Payload};
use tables::limits::MAX_COUNT;
use tables::{Scale, money_to_word};

/// W_YTD: within 10,000,000,000,000 cents of zero.
#[derive(Clone, Copy, Debug, PartialEq, Eq)]
pub struct WarehouseColumns {
    pub year_to_date: Cents,
}

/// D_YTD, within 10,000,000,000,000 cents of zero, and D_NEXT_O_ID, from 1 to the order cap and 1.
#[derive(Clone, Copy, Debug, PartialEq, Eq)]
pub struct DistrictColumns {
    pub year_to_date: Cents,
    pub next_order: u32,
}

/// C_BALANCE and C_YTD_PAYMENT, within 10,000,000,000,000 cents of zero, C_PAYMENT_CNT and C_DELIVERY_CNT, from 0 to
/// 1,000,000,000.
#[derive(Clone, Copy, Debug, PartialEq, Eq)]
pub struct CustomerColumns {
    pub balance: Cents,
    pub paid: Cents,
    pub payments: u32,
    pub deliveries: u32,
}

impl WarehouseColumns {
    /// The columns of these words, or None where they are no warehouse's.
    pub(crate) fn of_words(words: &Payload) -> Option<WarehouseColumns>
        ensures { IsReading AreWarehouseColumns warehouse_columns_words words.now result }
    {
        let [year_to_date, 0, 0, 0, 0, 0, 0] = *words else {
            return None;
        };
        Some(WarehouseColumns {
            year_to_date: money(year_to_date)?,
        })
    }

    /// Their words.
    pub(crate) fn to_words(self) -> Payload
        ensures { result ≡ warehouse_columns_words self }
    {
        [money_to_word(self.year_to_date), 0, 0, 0, 0, 0, 0]
    }
}

impl DistrictColumns {
    /// The columns of these words, or None where they are no district's of this scale.
    pub(crate) fn of_words(scale: &Scale, words: &Payload) -> Option<DistrictColumns>
        ensures { IsReading (AreDistrictColumns scale.now) district_columns_words words.now result }
    {
        let [year_to_date, next_order, 0, 0, 0, 0, 0] = *words else {
            return None;
        };
        Some(DistrictColumns {
            year_to_date: money(year_to_date)?,
            next_order: number(next_order, 1, scale.orders() + 1)?,
        })
    }

    /// Their words.
    pub(crate) fn to_words(self) -> Payload
        ensures { result ≡ district_columns_words self }
    {
        let next_order = u64::from(self.next_order);
        [money_to_word(self.year_to_date), next_order, 0, 0, 0, 0, 0]
    }
}

impl CustomerColumns {
    /// The columns of these words, or None where they are no customer's.
    pub(crate) fn of_words(words: &Payload) -> Option<CustomerColumns>
        ensures { IsReading AreCustomerColumns customer_columns_words words.now result }
    {
        let [balance, paid, payments, deliveries, 0, 0, 0] = *words else {
            return None;
        };
        Some(CustomerColumns {
            balance: money(balance)?,
            paid: money(paid)?,
            payments: number(payments, 0, MAX_COUNT)?,
            deliveries: number(deliveries, 0, MAX_COUNT)?,
        })
    }

    /// Their words.
    pub(crate) fn to_words(self) -> Payload
        ensures { result ≡ customer_columns_words self }
    {
        let payments = u64::from(self.payments);
        let deliveries = u64::from(self.deliveries);
        [
            money_to_word(self.balance),
            money_to_word(self.paid),
            payments,
            deliveries,
            0,
            0,
            0,
        ]
    }
}
