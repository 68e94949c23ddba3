//! What the records of tables hold.

ghost use Rattle.std.specs.Prelude.{◌≡◌};
ghost use Rattle.tables.specs.Database.{database};
ghost use Rattle.tables.specs.Records.{IsRowKey};
ghost use Rattle.tables.specs.Rows.{row_at};
ghost use Rattle.tables.specs.declared.records.RecordKey.TheVariants as record_key;

use crate::Tables;
use crate::keys::{CustomerKey, DistrictKey, LineKey, OrderKey, StockKey};
use crate::records::RecordKey;
use money::Payload;

impl Tables {
    /// The words of the row of a key: its columns that change, or None where the tables have no such row. One look-up.
    /// The two index records have no row, and C_DATA has other words: none are asked of them here.
    pub fn words(&self, key: RecordKey) -> Option<Payload>
        requires { IsRowKey key }
        ensures { result ≡ row_at (database self.now) key }
    {
        match key {
            RecordKey::Warehouse(key) => warehouse(self, key),
            RecordKey::District(key) => district(self, key),
            RecordKey::Customer(key) => customer(self, key),
            RecordKey::NewOrder(key) => new_order(self, key),
            RecordKey::Order(key) => order(self, key),
            RecordKey::OrderLine(key) => line(self, key),
            RecordKey::Stock(key) => stock(self, key),
            RecordKey::Oldest(_) | RecordKey::Last(_) | RecordKey::CustomerData(_) => None,
        }
    }
}

fn warehouse(tables: &Tables, key: u32) -> Option<Payload>
    ensures { result ≡ row_at (database tables.now) (record_key.Warehouse key) }
{
    match tables.warehouses.get(&key) {
        None => None,
        Some(row) => Some(row.words()),
    }
}

fn district(tables: &Tables, key: DistrictKey) -> Option<Payload>
    ensures { result ≡ row_at (database tables.now) (record_key.District key) }
{
    match tables.districts.get(&key) {
        None => None,
        Some(row) => Some(row.words()),
    }
}

fn customer(tables: &Tables, key: CustomerKey) -> Option<Payload>
    ensures { result ≡ row_at (database tables.now) (record_key.Customer key) }
{
    match tables.customers.get(&key) {
        None => None,
        Some(row) => Some(row.words()),
    }
}

fn new_order(tables: &Tables, key: OrderKey) -> Option<Payload>
    ensures { result ≡ row_at (database tables.now) (record_key.NewOrder key) }
{
    match tables.new_orders.get(&key) {
        None => None,
        Some(row) => Some(row.words()),
    }
}

fn order(tables: &Tables, key: OrderKey) -> Option<Payload>
    ensures { result ≡ row_at (database tables.now) (record_key.Order key) }
{
    match tables.orders.get(&key) {
        None => None,
        Some(row) => Some(row.words()),
    }
}

fn line(tables: &Tables, key: LineKey) -> Option<Payload>
    ensures { result ≡ row_at (database tables.now) (record_key.OrderLine key) }
{
    match tables.lines.get(&key) {
        None => None,
        Some(row) => Some(row.words()),
    }
}

fn stock(tables: &Tables, key: StockKey) -> Option<Payload>
    ensures { result ≡ row_at (database tables.now) (record_key.Stock key) }
{
    match tables.stock.get(&key) {
        None => None,
        Some(row) => Some(row.words()),
    }
}
