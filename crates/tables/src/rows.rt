//! The rows of the nine tables (TPC-C 1.3), less their keys, with the columns that are kept here. Where a
//! column may be null (TPC-C 1.3.1) it is an `Option`.

use money::{Cents, Rate};

/// A row of WAREHOUSE: W_TAX, which never changes, and W_YTD.
#[derive(Clone, Copy, Debug, PartialEq, Eq)]
pub struct Warehouse {
    pub tax: Rate,
    pub year_to_date: Cents,
}

/// A row of DISTRICT: D_TAX, which never changes, D_YTD and D_NEXT_O_ID.
#[derive(Clone, Copy, Debug, PartialEq, Eq)]
pub struct District {
    pub tax: Rate,
    pub year_to_date: Cents,
    pub next_order: u32,
}

/// C_CREDIT: good ("GC") or bad ("BC").
#[derive(Clone, Copy, Debug, PartialEq, Eq)]
pub enum Credit {
    Good,
    Bad,
}

/// A row of CUSTOMER. C_FIRST, C_LAST, C_CREDIT and C_DISCOUNT never change.
#[derive(Clone, Copy, Debug, PartialEq, Eq)]
pub struct Customer {
    /// C_FIRST is the letter F and the four digits of this number, from 0 to 9,999.
    pub first_name: u32,
    /// C_LAST is the name of this number, from 0 to 999 (TPC-C 4.3.2.3).
    pub last_name: u32,
    pub credit: Credit,
    pub discount: Rate,
    /// C_BALANCE.
    pub balance: Cents,
    /// C_YTD_PAYMENT.
    pub paid: Cents,
    /// C_PAYMENT_CNT.
    pub payments: u32,
    /// C_DELIVERY_CNT.
    pub deliveries: u32,
}

/// A row of HISTORY: H_C_ID, H_C_D_ID, H_C_W_ID, H_D_ID, H_W_ID, H_DATE and H_AMOUNT.
#[derive(Clone, Copy, Debug, PartialEq, Eq)]
pub struct History {
    pub customer: u32,
    pub customer_district: u32,
    pub customer_warehouse: u32,
    pub district: u32,
    pub warehouse: u32,
    pub date: u32,
    pub amount: Cents,
}

/// A row of NEW-ORDER, which has no column but its key.
#[derive(Clone, Copy, Debug, PartialEq, Eq)]
pub struct NewOrder;

/// A row of ORDER: O_C_ID, O_ENTRY_D, O_CARRIER_ID, O_OL_CNT and O_ALL_LOCAL.
#[derive(Clone, Copy, Debug, PartialEq, Eq)]
pub struct Order {
    pub customer: u32,
    pub entry_date: u32,
    /// None until the order is delivered.
    pub carrier: Option<u32>,
    pub line_count: u32,
    pub all_local: bool,
}

/// A row of ORDER-LINE: OL_I_ID, OL_SUPPLY_W_ID, OL_DELIVERY_D, OL_QUANTITY and OL_AMOUNT.
#[derive(Clone, Copy, Debug, PartialEq, Eq)]
pub struct OrderLine {
    pub item: u32,
    pub supply_warehouse: u32,
    /// None until the order is delivered.
    pub delivery_date: Option<u32>,
    pub quantity: u32,
    pub amount: Cents,
}

/// A row of ITEM: I_PRICE. It never changes.
#[derive(Clone, Copy, Debug, PartialEq, Eq)]
pub struct Item {
    pub price: Cents,
}

/// A row of STOCK: S_QUANTITY, S_YTD, S_ORDER_CNT and S_REMOTE_CNT.
#[derive(Clone, Copy, Debug, PartialEq, Eq)]
pub struct Stock {
    pub quantity: u32,
    pub year_to_date: u32,
    pub orders: u32,
    pub remote_orders: u32,
}
