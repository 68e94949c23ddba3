//! The keys of record numbers.

ghost use Rattle.std.specs.Prelude.{◌≡◌, ◌<◌, ◌^◌};
ghost use Rattle.tables.specs.Records.{size, first_number, record_count, table_at, place_at, key_at, key_of};
ghost use Rattle.tables.specs.Records.{district_at, customer_at, order_at, line_at, stock_at};
ghost use Rattle.tables.specs.Records.{narrow_count, IsRecordKey, IsNarrowKey, IsRowKey};
ghost use Rattle.tables.specs.declared.records.Table.TheVariants as table;

use crate::keys::{CustomerKey, DistrictKey, LineKey, OrderKey, StockKey};
use crate::limits::MAX_ORDER_LINES;
use crate::records::{RecordKey, Table};
use crate::scale::Scale;

/// The tables, in the order of their records' numbers.
const TABLES: [Table; 12] = [
    Table::Warehouse,
    Table::District,
    Table::Customer,
    Table::History,
    Table::NewOrder,
    Table::Order,
    Table::OrderLine,
    Table::Item,
    Table::Stock,
    Table::Oldest,
    Table::Last,
    Table::CustomerData,
];

/// The key of the record of a number. Constant time.
pub fn key_of(scale: &Scale, number: u32) -> RecordKey
    requires { number < record_count scale.now }
    ensures value { result ≡ key_of scale.now number }
    ensures key { IsRecordKey scale.now result }
    ensures narrow { number < narrow_count scale.now → IsNarrowKey scale.now result }
    ensures row { number < first_number scale.now table.Oldest → IsRowKey result }
{
    let (table, place) = locate(scale, number);
    key_at(scale, table, place)
}

/// The table of a record number, and its place there.
pub fn locate(scale: &Scale, number: u32) -> (Table, u32)
    requires { number < record_count scale.now }
    ensures table { result.0 ≡ table_at scale.now number }
    ensures place { result.1 ≡ place_at scale.now number }
    ensures within { result.1 < size scale.now result.0 }
    ensures fits { result.1 < 2 ^ 31 }
{
    let mut place = number;
    for table in TABLES {
        let size = table.size(scale);
        if place < size {
            return (table, place);
        }
        place -= size;
    }
    (Table::Last, place)
}

/// The key at a place of a table.
fn key_at(scale: &Scale, table: Table, place: u32) -> RecordKey
    requires within { place < size scale.now table }
    requires fits { place < 2 ^ 31 }
    ensures { result ≡ key_at scale.now table place }
{
    match table {
        Table::Warehouse => RecordKey::Warehouse(place + 1),
        Table::District => RecordKey::District(district_at(scale, place)),
        Table::Customer => RecordKey::Customer(customer_at(scale, place)),
        Table::NewOrder => RecordKey::NewOrder(order_at(scale, place)),
        Table::Order => RecordKey::Order(order_at(scale, place)),
        Table::OrderLine => RecordKey::OrderLine(line_at(scale, place)),
        Table::Stock => RecordKey::Stock(stock_at(scale, place)),
        Table::Oldest => RecordKey::Oldest(district_at(scale, place)),
        Table::Last => RecordKey::Last(customer_at(scale, place)),
        Table::CustomerData => RecordKey::CustomerData(customer_at(scale, place)),
        // Without places.
        Table::History | Table::Item => RecordKey::Warehouse(0),
    }
}

/// The district at a place of DISTRICT, or of OLDEST. Constant time.
pub fn district_at(scale: &Scale, place: u32) -> DistrictKey
    requires { place < 2 ^ 31 }
    ensures { result ≡ district_at scale.now place }
{
    DistrictKey {
        warehouse: place / scale.districts() + 1,
        district: place % scale.districts() + 1,
    }
}

/// The customer at a place of CUSTOMER, of LAST, or of the records of C_DATA. Constant time.
pub fn customer_at(scale: &Scale, place: u32) -> CustomerKey
    requires { place < 2 ^ 31 }
    ensures { result ≡ customer_at scale.now place }
{
    let of = district_at(scale, place / scale.customers());
    CustomerKey {
        warehouse: of.warehouse,
        district: of.district,
        customer: place % scale.customers() + 1,
    }
}

fn order_at(scale: &Scale, place: u32) -> OrderKey
    requires { place < 2 ^ 31 }
    ensures { result ≡ order_at scale.now place }
{
    // The order cap is at least the number of customers, which isn't 0.
    prove!(scale.customers() > 0);
    let of = district_at(scale, place / scale.orders());
    OrderKey {
        warehouse: of.warehouse,
        district: of.district,
        order: place % scale.orders() + 1,
    }
}

fn line_at(scale: &Scale, place: u32) -> LineKey
    requires { place < 2 ^ 31 }
    ensures { result ≡ line_at scale.now place }
{
    let of = order_at(scale, place / MAX_ORDER_LINES);
    LineKey {
        warehouse: of.warehouse,
        district: of.district,
        order: of.order,
        line: place % MAX_ORDER_LINES + 1,
    }
}

fn stock_at(scale: &Scale, place: u32) -> StockKey
    requires { place < 2 ^ 31 }
    ensures { result ≡ stock_at scale.now place }
{
    StockKey {
        warehouse: place / scale.items() + 1,
        item: place % scale.items() + 1,
    }
}
