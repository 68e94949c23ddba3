//! How a session shows a row.

ghost use Rattle.std.specs.Prelude.{◌≡◌, Some, IfOk};
ghost use Rattle.std.specs.FinMap.{get};
ghost use Rattle.tables.specs.Keys.{IsWarehouseKey, IsDistrictKey, IsCustomerKey};
ghost use Rattle.tables.specs.Database.{database};
ghost use Rattle.tables.specs.Records.{IsNarrowKey};
ghost use Rattle.tables.specs.declared.records.RecordKey.TheVariants as record_key;
ghost use Rattle.tables.specs.Rows.{row_at};
ghost use Rattle.tables.specs.WellFormed.{IsWellFormed};
ghost use Rattle.book.specs.History.{replay};
ghost use Rattle.program_script_text.specs.Requests.{IsShowKey};
ghost use Rattle.program_script.specs.Turns.{row_of};

use book::Run;
use book_session::Session;
use customer_data::{CustomerData, DataWords};
use money::Payload;
use program_script_text::{ShowKey, ShownRow};
use rows::{CustomerColumns, DistrictColumns, Present, Row, WarehouseColumns};
use std::alloc::{AllocError, Global};
use tables::{
    Customer, CustomerKey, District, DistrictKey, RecordKey, Tables, Warehouse, number_of_key,
};

/// The row at a key of the scale, or that there is no such order. Costs one record, and for a row with columns that
/// never change a look-up in the population. Only C_DATA may take memory.
pub(crate) fn show<K: Run>(
    alloc: Global,
    session: &mut Session<'_, K>,
    key: ShowKey,
) -> Result<ShownRow, AllocError>
    requires { IsShowKey K.run.first.scale key }
    ensures same { session.new ≡ session.old }
    ensures row { IfOk result (λ row. row_of (replay K.run.first session.old.history) key ≡ Some row) }
{
    let row = match key {
        ShowKey::Warehouse(warehouse) => {
            let row = warehouse_at(session, warehouse);
            ShownRow::Warehouse { warehouse, row }
        }
        ShowKey::District(key) => {
            let row = district_at(session, key);
            ShownRow::District { key, row }
        }
        ShowKey::Customer(key) => {
            let row = customer_at(session, key);
            ShownRow::Customer { key, row }
        }
        ShowKey::CustomerData(key) => {
            let text = text_at(alloc, session, key)?;
            ShownRow::CustomerData { key, text }
        }
        ShowKey::Stock(key) => {
            let row = present_at(session, key);
            ShownRow::Stock { key, row }
        }
        ShowKey::Order(key) => {
            let row = row_at(session, key);
            ShownRow::Order { key, row }
        }
    };
    Ok(row)
}

/// The row of WAREHOUSE at a key of the scale.
fn warehouse_at<K: Run>(session: &mut Session<'_, K>, key: u32) -> Warehouse
    requires { IsWarehouseKey K.run.first.scale key }
    ensures same { session.new ≡ session.old }
    ensures row { get (replay K.run.first session.old.history).warehouses key ≡ Some result }
{
    let columns: WarehouseColumns = present_at(session, key);
    let first = first_tables(session).warehouses.get(&key).unwrap();
    Warehouse {
        year_to_date: columns.year_to_date,
        ..*first
    }
}

/// The row of DISTRICT at a key of the scale.
fn district_at<K: Run>(session: &mut Session<'_, K>, key: DistrictKey) -> District
    requires { IsDistrictKey K.run.first.scale key }
    ensures same { session.new ≡ session.old }
    ensures row { get (replay K.run.first session.old.history).districts key ≡ Some result }
{
    let columns: DistrictColumns = present_at(session, key);
    let first = first_tables(session).districts.get(&key).unwrap();
    District {
        year_to_date: columns.year_to_date,
        next_order: columns.next_order,
        ..*first
    }
}

/// The row of CUSTOMER at a key of the scale.
fn customer_at<K: Run>(session: &mut Session<'_, K>, key: CustomerKey) -> Customer
    requires { IsCustomerKey K.run.first.scale key }
    ensures same { session.new ≡ session.old }
    ensures row { get (replay K.run.first session.old.history).customers key ≡ Some result }
{
    let columns: CustomerColumns = present_at(session, key);
    let first = first_tables(session).customers.get(&key).unwrap();
    Customer {
        balance: columns.balance,
        paid: columns.paid,
        payments: columns.payments,
        deliveries: columns.deliveries,
        ..*first
    }
}

/// C_DATA of a customer of the scale, as its record holds it.
fn text_at<K: Run>(
    alloc: Global,
    session: &mut Session<'_, K>,
    key: CustomerKey,
) -> Result<CustomerData, AllocError>
    requires { IsCustomerKey K.run.first.scale key }
    ensures same { session.new ≡ session.old }
    ensures row { IfOk result (λ text. get (replay K.run.first session.old.history).texts key ≡ Some text) }
{
    let words = text_words(session, key);
    CustomerData::of_words(alloc, &words)
}

/// What the record of a customer's C_DATA holds in the committed tables, which are well-formed.
fn text_words<K: Run>(session: &mut Session<'_, K>, key: CustomerKey) -> DataWords
    requires { IsCustomerKey K.run.first.scale key }
    ensures same { session.new ≡ session.old }
    ensures words { Some result ≡ row_at (replay K.run.first session.old.history) (record_key.CustomerData key) }
    ensures well_formed { IsWellFormed (replay K.run.first session.old.history) }
{
    let scale = session.population().scale();
    let number = number_of_key(&scale, RecordKey::CustomerData(key));
    session.record_wide(number).unwrap()
}

/// The row at a key of the scale, of a table that has one at each.
fn present_at<T: Present, K: Run>(session: &mut Session<'_, K>, key: T::Key) -> T
    requires { IsNarrowKey K.run.first.scale (T.record_of key) }
    ensures same { session.new ≡ session.old }
    ensures row { T.at (replay K.run.first session.old.history) key ≡ Some result }
{
    row_at(session, key).unwrap()
}

/// The row at a key of the scale, as its record holds it, or None where there is none.
fn row_at<T: Row, K: Run>(session: &mut Session<'_, K>, key: T::Key) -> Option<T>
    requires { IsNarrowKey K.run.first.scale (T.record_of key) }
    ensures same { session.new ≡ session.old }
    ensures row { T.at (replay K.run.first session.old.history) key ≡ result }
    ensures well_formed { IsWellFormed (replay K.run.first session.old.history) }
{
    let words = words_of(session, T::key(key))?;
    T::read(&session.population().scale(), &words)
}

/// The tables that the run began with, which are well-formed.
fn first_tables<'s, K: Run>(session: &'s Session<'_, K>) -> &'s Tables
    ensures tables { database result.now ≡ K.run.first }
    ensures well_formed { IsWellFormed K.run.first }
{
    session.population().tables()
}

/// What the record of a key holds in the committed tables, which are well-formed.
fn words_of<K: Run>(session: &mut Session<'_, K>, key: RecordKey) -> Option<Payload>
    requires { IsNarrowKey K.run.first.scale key }
    ensures same { session.new ≡ session.old }
    ensures words { result ≡ row_at (replay K.run.first session.old.history) key }
    ensures well_formed { IsWellFormed (replay K.run.first session.old.history) }
{
    let scale = session.population().scale();
    session.record(number_of_key(&scale, key))
}
