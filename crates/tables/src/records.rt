//! Records: what a transaction reads or writes as one. A record is a row by its key, a customer's C_DATA, or one of two
//! index records of the engine's own, and has a number (Silo, SOSP 2013, section 4.2, names a record by its address;
//! the numbers are the engine's own).

ghost use Rattle.std.specs.Prelude.{◌≡◌, ◌+◌, ◌-◌, ◌*◌, ◌<◌, ◌≤◌, ◌^◌};
ghost use Rattle.tables.specs.Sizes.{Sizes};
ghost use Rattle.tables.specs.Keys.{IsDistrictKey, IsCustomerKey, IsOrderKey, IsLineKey, IsStockKey};
ghost use Rattle.tables.specs.Records.{size, first_number, record_number, record_count, narrow_count};
ghost use Rattle.tables.specs.Records.{district_place, customer_place, order_place, place_of, NumbersNameKeys};
ghost use Rattle.tables.specs.Records.{NumbersNamePlaces, table_number, table_numbered};
ghost use Rattle.tables.specs.declared.records.Table.TheVariants as table;
ghost use Rattle.tables.specs.declared.records.RecordKey.TheVariants as record_key;

use crate::keys::{CustomerKey, DistrictKey, LineKey, OrderKey, StockKey};
use crate::limits::{MAX_ORDER_LINES, MAX_TABLE_RECORDS};
use crate::scale::Scale;

/// The tables of records, in the order of their numbers, which begin at 1. HISTORY has no key and ITEM
/// never changes, so those two have no records.
#[derive(Clone, Copy, Debug, PartialEq, Eq)]
pub enum Table {
    Warehouse,
    District,
    Customer,
    History,
    NewOrder,
    Order,
    OrderLine,
    Item,
    Stock,
    /// The least NO_O_ID of a district, or D_NEXT_O_ID where it has no NEW-ORDER row.
    Oldest,
    /// The greatest O_ID of a customer, or 0 where it has no order.
    Last,
    /// C_DATA of a customer, apart from the other columns of CUSTOMER.
    CustomerData,
}

/// A record by its table and key.
#[derive(Clone, Copy, Debug, PartialEq, Eq)]
pub enum RecordKey {
    Warehouse(u32),
    District(DistrictKey),
    Customer(CustomerKey),
    NewOrder(OrderKey),
    Order(OrderKey),
    OrderLine(LineKey),
    Stock(StockKey),
    Oldest(DistrictKey),
    Last(CustomerKey),
    CustomerData(CustomerKey),
}

impl Table {
    /// The table's number, from 1 to 12.
    pub fn number(self) -> u8
        ensures number { result ≡ table_number self }
        ensures limit { result ≤ 12 }
    {
        match self {
            Table::Warehouse => 1,
            Table::District => 2,
            Table::Customer => 3,
            Table::History => 4,
            Table::NewOrder => 5,
            Table::Order => 6,
            Table::OrderLine => 7,
            Table::Item => 8,
            Table::Stock => 9,
            Table::Oldest => 10,
            Table::Last => 11,
            Table::CustomerData => 12,
        }
    }

    /// The table of a number, which is None but from 1 to 12.
    pub fn of_number(number: u8) -> Option<Table>
        ensures { result ≡ table_numbered number }
    {
        match number {
            1 => Some(Table::Warehouse),
            2 => Some(Table::District),
            3 => Some(Table::Customer),
            4 => Some(Table::History),
            5 => Some(Table::NewOrder),
            6 => Some(Table::Order),
            7 => Some(Table::OrderLine),
            8 => Some(Table::Item),
            9 => Some(Table::Stock),
            10 => Some(Table::Oldest),
            11 => Some(Table::Last),
            12 => Some(Table::CustomerData),
            _ => None,
        }
    }

    /// How many records the table has room for.
    pub fn size(self, scale: &Scale) -> u32
        ensures value { result ≡ size scale.now self }
        ensures limit { result ≤ MAX_TABLE_RECORDS }
    {
        let districts = scale.warehouses() * scale.districts();
        match self {
            Table::Warehouse => scale.warehouses(),
            Table::District | Table::Oldest => districts,
            Table::Customer | Table::Last | Table::CustomerData => { districts * scale.customers() }
            Table::NewOrder | Table::Order => districts * scale.orders(),
            Table::OrderLine => districts * scale.orders() * MAX_ORDER_LINES,
            Table::Stock => scale.warehouses() * scale.items(),
            Table::History | Table::Item => 0,
        }
    }

    /// The number of the table's first record. Where it has none, that of the first one behind. Constant time.
    pub fn first(self, scale: &Scale) -> u32
        ensures value { result ≡ first_number scale.now self }
        ensures limit { result + size scale.now self ≤ record_count scale.now }
        ensures fits { record_count scale.now < 2 ^ 32 }
    {
        let districts = scale.warehouses() * scale.districts();
        let customers = districts * scale.customers();
        let orders = districts * scale.orders();
        let before_orders = scale.warehouses() + districts + customers;
        let before_stock = before_orders + orders * (2 + MAX_ORDER_LINES);
        let before_oldest = before_stock + scale.warehouses() * scale.items();
        match self {
            Table::Warehouse => 0,
            Table::District => scale.warehouses(),
            Table::Customer => scale.warehouses() + districts,
            Table::History | Table::NewOrder => before_orders,
            Table::Order => before_orders + orders,
            Table::OrderLine => before_orders + orders * 2,
            Table::Item | Table::Stock => before_stock,
            Table::Oldest => before_oldest,
            Table::Last => before_oldest + districts,
            Table::CustomerData => before_oldest + districts + customers,
        }
    }

    /// The number of the first record behind the table's. Constant time.
    pub fn end(self, scale: &Scale) -> u32
        ensures value { result ≡ first_number scale.now self + size scale.now self }
        ensures limit { result ≤ record_count scale.now }
    {
        self.first(scale) + self.size(scale)
    }
}

/// How many records a scale has. Constant time.
pub fn record_count(scale: &Scale) -> u32
    ensures { result ≡ record_count scale.now }
{
    Table::CustomerData.end(scale)
}

/// How many of them are narrow: hold the columns of a row, or a number of the engine's own. The wide ones, of C_DATA,
/// come behind them. Constant time.
pub fn narrow_count(scale: &Scale) -> u32
    ensures { result ≡ narrow_count scale.now }
{
    Table::CustomerData.first(scale)
}

/// The number of a record: its place in its table, from 0, after the records of all tables with smaller
/// numbers. Constant time.
pub fn rec(scale: &Scale, table: Table, place: u32) -> u32
    requires { place < size scale.now table }
    ensures value { result ≡ record_number scale.now table place }
    ensures limit { result < record_count scale.now }
{
    table.first(scale) + place
}

/// The place of a district in DISTRICT, and in OLDEST. Constant time.
#[tactic(auto, using(crate::proofs::Numbers::district_there))]
pub fn place_of_district(scale: &Scale, key: DistrictKey) -> u32
    requires { IsDistrictKey scale.now key }
    ensures value { result ≡ district_place scale.now key.warehouse key.district }
    ensures limit { result < size scale.now table.District }
{
    let size = Table::District.size(scale);
    place(size, key.warehouse - 1, scale.districts(), key.district)
}

/// The place of a customer in CUSTOMER, in LAST and among the records of C_DATA. Constant time.
#[tactic(auto, using(crate::proofs::Numbers::customer_there))]
pub fn place_of_customer(scale: &Scale, key: CustomerKey) -> u32
    requires { IsCustomerKey scale.now key }
    ensures value { result ≡ customer_place scale.now key }
    ensures limit { result < size scale.now table.Customer }
{
    let row = place_of_district(scale, key.district_key());
    let size = Table::Customer.size(scale);
    place(size, row, scale.customers(), key.customer)
}

/// The place of an order in ORDER, and in NEW-ORDER. Constant time.
#[tactic(auto, using(crate::proofs::Numbers::order_there))]
pub fn place_of_order(scale: &Scale, key: OrderKey) -> u32
    requires { IsOrderKey scale.now key }
    ensures value { result ≡ order_place scale.now key }
    ensures limit { result < size scale.now table.Order }
{
    let row = place_of_district(scale, key.district_key());
    let size = Table::Order.size(scale);
    place(size, row, scale.orders(), key.order)
}

#[tactic(auto, using(crate::proofs::Numbers::line_there))]
pub(crate) fn place_of_line(scale: &Scale, key: LineKey) -> u32
    requires { IsLineKey scale.now key }
    ensures value { result ≡ place_of scale.now (record_key.OrderLine key) }
    ensures limit { result < size scale.now table.OrderLine }
{
    let row = place_of_order(scale, key.order_key());
    place(Table::OrderLine.size(scale), row, MAX_ORDER_LINES, key.line)
}

#[tactic(auto, using(crate::proofs::Numbers::stock_there))]
pub(crate) fn place_of_stock(scale: &Scale, key: StockKey) -> u32
    requires { IsStockKey scale.now key }
    ensures value { result ≡ place_of scale.now (record_key.Stock key) }
    ensures limit { result < size scale.now table.Stock }
{
    let size = Table::Stock.size(scale);
    place(size, key.warehouse - 1, scale.items(), key.item)
}

/// The place of a column, counted from 1, of a row, counted from 0, where a row has that width.
fn place(size: u32, row: u32, width: u32, column: u32) -> u32
    requires column { 1 ≤ column }
    requires limit { row * width + (column - 1) < size }
    ensures value { result ≡ row * width + (column - 1) }
    ensures limit { result < size }
{
    let place = row * width + (column - 1);
    // The table's size bounds the sum.
    prove!(place < size);
    place
}

/// The keys of a scale and the numbers of its records are one to one, and so are the places of its tables
/// and those numbers. The function does nothing: its contract is the law.
pub fn records_have_one_number_each(scale: &Scale)
    ensures keys { NumbersNameKeys scale.now }
    ensures places { NumbersNamePlaces scale.now }
{}
