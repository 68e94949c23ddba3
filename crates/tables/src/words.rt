//! The columns of a row that change, as the words that its record holds. Words past the columns are
//! 0.

ghost use Rattle.std.specs.Prelude.{◌≡◌};
ghost use Rattle.tables.specs.Rows.{money_word, money_of, warehouse_words, district_words, customer_words};
ghost use Rattle.tables.specs.Rows.{new_order_words, order_words, line_words, stock_words};

use crate::rows::{Customer, District, NewOrder, Order, OrderLine, Stock, Warehouse};
use money::{Cents, NO_PAYLOAD, Payload};

/// An amount as a word of 64 bits, two's complement.
pub fn money_to_word(amount: Cents) -> u64
    ensures { result ≡ money_word amount }
{
    amount.amount().cast_unsigned()
}

/// The amount of a word, which is taken as two's complement.
pub fn money_from_word(word: u64) -> Cents
    ensures { result ≡ money_of word }
{
    Cents::new(word.cast_signed())
}

impl Warehouse {
    /// W_YTD.
    pub fn words(&self) -> Payload
        ensures { result ≡ warehouse_words self.now }
    {
        [money_to_word(self.year_to_date), 0, 0, 0, 0, 0, 0]
    }
}

impl District {
    /// D_YTD and D_NEXT_O_ID.
    pub fn words(&self) -> Payload
        ensures { result ≡ district_words self.now }
    {
        let next_order = u64::from(self.next_order);
        [money_to_word(self.year_to_date), next_order, 0, 0, 0, 0, 0]
    }
}

impl Customer {
    /// C_BALANCE, C_YTD_PAYMENT, C_PAYMENT_CNT and C_DELIVERY_CNT.
    pub fn words(&self) -> Payload
        ensures { result ≡ customer_words self.now }
    {
        [
            money_to_word(self.balance),
            money_to_word(self.paid),
            u64::from(self.payments),
            u64::from(self.deliveries),
            0,
            0,
            0,
        ]
    }
}

impl NewOrder {
    /// No column.
    pub fn words(&self) -> Payload
        ensures { result ≡ new_order_words self.now }
    {
        NO_PAYLOAD
    }
}

impl Order {
    /// O_C_ID, O_ENTRY_D, O_CARRIER_ID (0 where it is null), O_OL_CNT and O_ALL_LOCAL.
    pub fn words(&self) -> Payload
        ensures { result ≡ order_words self.now }
    {
        [
            u64::from(self.customer),
            u64::from(self.entry_date),
            u64::from(self.carrier.unwrap_or(0)),
            u64::from(self.line_count),
            u64::from(self.all_local),
            0,
            0,
        ]
    }
}

impl OrderLine {
    /// OL_I_ID, OL_SUPPLY_W_ID, OL_DELIVERY_D (0 where it is null), OL_QUANTITY and OL_AMOUNT.
    pub fn words(&self) -> Payload
        ensures { result ≡ line_words self.now }
    {
        [
            u64::from(self.item),
            u64::from(self.supply_warehouse),
            u64::from(self.delivery_date.unwrap_or(0)),
            u64::from(self.quantity),
            money_to_word(self.amount),
            0,
            0,
        ]
    }
}

impl Stock {
    /// S_QUANTITY, S_YTD, S_ORDER_CNT and S_REMOTE_CNT.
    pub fn words(&self) -> Payload
        ensures { result ≡ stock_words self.now }
    {
        [
            u64::from(self.quantity),
            u64::from(self.year_to_date),
            u64::from(self.orders),
            u64::from(self.remote_orders),
            0,
            0,
            0,
        ]
    }
}
