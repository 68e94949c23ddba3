//! The nine tables of TPC-C as they are kept here, the inputs and replies of its transactions, and, in
//! `specs/`, the definitions that every promise of this repository is made of: what a transaction does to
//! the tables, when tables are well-formed, and the consistency conditions (TPC-C 3.3.2).
#![tactic(auto)]

mod customer;
mod delivery;
mod held;
mod input;
mod keys;
pub mod limits;
mod located;
mod names;
mod new_order;
mod numbering;
mod order_lines;
mod order_status;
mod payment;
mod records;
mod reply;
mod rows;
mod scale;
mod stock_level;
mod words;

pub use customer::Who;
use customer_data::CustomerData;
pub use delivery::{DeliveredOrder, DeliveryInput, DeliveryReply};
pub use input::Input;
pub use keys::{CustomerKey, DistrictKey, LineKey, OrderKey, StockKey};
pub use located::{customer_at, district_at, key_of, locate};
pub use names::NameKey;
pub use new_order::{NewOrderInput, NewOrderReply, RequestedLine, SuppliedLine};
pub use numbering::{Numbering, number_of_key};
pub use order_lines::Lines;
pub use order_status::{LastOrder, OrderStatusInput, OrderStatusReply};
pub use payment::{PaymentInput, PaymentReply};
pub use records::{
    RecordKey, Table, narrow_count, place_of_customer, place_of_district, place_of_order, rec,
    record_count, records_have_one_number_each,
};
pub use reply::Reply;
pub use rows::{
    Credit, Customer, District, History, Item, NewOrder, Order, OrderLine, Stock, Warehouse,
};
pub use scale::{Scale, is_between};
use std::alloc::Global;
use std::collections::BTreeMap;
pub use stock_level::{StockLevelInput, StockLevelReply};
pub use words::{money_from_word, money_to_word};

/// The nine tables (TPC-C 1.3): eight maps from key to row, and HISTORY, which has no key, as a list in
/// the order in which its rows came. C_DATA, the longest column of CUSTOMER, has a map of its own.
///
/// Contracts see them as the finite maps and the list of `database` in `specs/Database.antt`.
#[derive(Debug, Drop)]
pub struct Tables {
    pub scale: Scale,
    pub warehouses: BTreeMap<u32, Warehouse>,
    pub districts: BTreeMap<DistrictKey, District>,
    pub customers: BTreeMap<CustomerKey, Customer>,
    /// C_DATA of each customer.
    pub texts: BTreeMap<CustomerKey, CustomerData>,
    pub history: Vec<History>,
    pub new_orders: BTreeMap<OrderKey, NewOrder>,
    pub orders: BTreeMap<OrderKey, Order>,
    pub lines: BTreeMap<LineKey, OrderLine>,
    pub items: BTreeMap<u32, Item>,
    pub stock: BTreeMap<StockKey, Stock>,
}

impl Tables {
    ghost use Rattle.std.specs.Prelude.{◌≡◌};
    ghost use Rattle.tables.specs.Database.{database, empty_database};

    /// Tables without rows. Takes no memory.
    pub fn new(alloc: Global, scale: Scale) -> Tables
        ensures { database result ≡ empty_database scale }
    {
        Tables {
            scale,
            warehouses: BTreeMap::new(alloc),
            districts: BTreeMap::new(alloc),
            customers: BTreeMap::new(alloc),
            texts: BTreeMap::new(alloc),
            history: Vec::new(alloc),
            new_orders: BTreeMap::new(alloc),
            orders: BTreeMap::new(alloc),
            lines: BTreeMap::new(alloc),
            items: BTreeMap::new(alloc),
            stock: BTreeMap::new(alloc),
        }
    }
}
