//! What a line of a script asks.

use tables::{CustomerKey, DistrictKey, Input, OrderKey, Scale, StockKey, is_between};

/// What a line of a script asks. Its words are parted by one space each, its numbers are written without a
/// leading zero, and its amount with two digits behind a point. WHO is the number of a customer, or a last name in
/// capital letters (TPC-C 4.3.2.3), such as `BAROUGHTESE` for 15.
#[derive(Debug, Drop, PartialEq)]
pub enum Request {
    /// A transaction, whose date is the number of the line.
    Transaction(Input),
    /// A row.
    Show(ShowKey),
}

/// The key of a row that can be shown.
#[derive(Clone, Copy, Debug, PartialEq, Eq)]
pub enum ShowKey {
    /// A row of WAREHOUSE: `show warehouse W`.
    Warehouse(u32),
    /// A row of DISTRICT: `show district W D`.
    District(DistrictKey),
    /// A row of CUSTOMER: `show customer W D C`.
    Customer(CustomerKey),
    /// C_DATA of a customer: `show data W D C`.
    CustomerData(CustomerKey),
    /// A row of STOCK: `show stock W I`.
    Stock(StockKey),
    /// A row of ORDER: `show order W D O`.
    Order(OrderKey),
}

impl ShowKey {
    ghost use Rattle.std.specs.Prelude.{◌↔◌, IsTrue};
    ghost use Rattle.program_script_text.specs.Requests.{IsShowKey};

    /// Whether the key is one of the scale.
    pub(crate) fn is_in_range(&self, scale: &Scale) -> bool
        ensures { IsTrue result ↔ IsShowKey scale.now self.now }
    {
        match self {
            ShowKey::Warehouse(warehouse) => is_between(1, scale.warehouses(), *warehouse),
            ShowKey::District(key) => {
                is_between(1, scale.warehouses(), key.warehouse)
                    && is_between(1, scale.districts(), key.district)
            }
            ShowKey::Customer(key) | ShowKey::CustomerData(key) => {
                is_between(1, scale.warehouses(), key.warehouse)
                    && is_between(1, scale.districts(), key.district)
                    && is_between(1, scale.customers(), key.customer)
            }
            ShowKey::Stock(key) => {
                is_between(1, scale.warehouses(), key.warehouse)
                    && is_between(1, scale.items(), key.item)
            }
            ShowKey::Order(key) => {
                is_between(1, scale.warehouses(), key.warehouse)
                    && is_between(1, scale.districts(), key.district)
                    && is_between(1, scale.orders(), key.order)
            }
        }
    }
}
