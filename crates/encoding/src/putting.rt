//! A record's words put into tables: the row of its key is inserted, or replaced. A NEW-ORDER row taken out.

ghost use Rattle.std.specs.Prelude.{◌≡◌, Some, None, OnOk};
ghost use Rattle.customer_data.specs.Text.{IsData};
ghost use Rattle.customer_data.specs.Words.{data_words};
ghost use Rattle.tables.specs.Database.{Database, database};
ghost use Rattle.tables.specs.Keys.{IsCustomerKey};
ghost use Rattle.tables.specs.Records.{IsNarrowKey, IsRecordKey};
ghost use Rattle.tables.specs.Sizes.{IsScale};
ghost use Rattle.tables.specs.WellFormed.{IsWellFormed};
ghost use Rattle.tables.specs.declared.records.RecordKey.TheVariants as record_key;
ghost use Rattle.encoding.specs.Puts.{IsRow, MayHold, Puts};

use customer_data::{CustomerData, DataWords};
use money::Payload;
use rows::{CustomerColumns, DistrictColumns, Row, WarehouseColumns};
use std::alloc::{AllocError, Global};
use tables::{
    Customer, CustomerKey, District, DistrictKey, LineKey, NewOrder, Order, OrderKey, OrderLine,
    RecordKey, Scale, Stock, StockKey, Tables, Warehouse,
};

/// Puts the words of a narrow record into tables: its row then has these words, and the columns that never change from
/// the population's row. One look-up and one insert. The words of an index record change nothing, since it has no row.
///
/// # Errors
///
/// Want of memory.
pub fn put(
    tables: &mut Tables,
    population: &Tables,
    key: RecordKey,
    words: &Payload,
) -> Result<(), AllocError>
    requires population { IsWellFormed (database population.now) }
    requires lawful { IsScale (database population.now).scale }
    requires key { IsNarrowKey (database population.now).scale key }
    requires words { MayHold (database population.now).scale key (Some words.now) }
    ensures { OnOk result (Puts (database population.now) key (Some words.now)
        (database tables.old) (database tables.new)) }
{
    match key {
        RecordKey::Warehouse(key) => put_warehouse(tables, population, key, words),
        RecordKey::District(key) => put_district(tables, population, key, words),
        RecordKey::Customer(key) => put_customer(tables, population, key, words),
        RecordKey::NewOrder(key) => put_new_order(tables, population, key, words),
        RecordKey::Order(key) => put_order(tables, population, key, words),
        RecordKey::OrderLine(key) => put_line(tables, population, key, words),
        RecordKey::Stock(key) => put_stock(tables, population, key, words),
        RecordKey::Oldest(_) | RecordKey::Last(_) => Ok(()),
        RecordKey::CustomerData(_) => unreachable!(),
    }
}

/// Puts the words of a customer's C_DATA into tables: its text is then the one of these words. One insert.
///
/// # Errors
///
/// Want of memory.
pub fn put_text(
    alloc: Global,
    tables: &mut Tables,
    key: CustomerKey,
    words: &DataWords,
) -> Result<(), AllocError>
    requires { IsRow data_words IsData (Some words.now) }
    ensures { OnOk result ((t0 : Database) → IsCustomerKey t0.scale key
        → Puts t0 (record_key.CustomerData key) (Some words.now) (database tables.old) (database tables.new)) }
{
    let text = CustomerData::of_words(alloc, words)?;
    tables.texts.insert(key, text)?;
    Ok(())
}

/// Takes the NEW-ORDER row of an order out, if it is there: its record is then absent, as a Delivery leaves it. No
/// other row is ever deleted. One look-up.
pub fn take_out(tables: &mut Tables, key: OrderKey)
    ensures { (t0 : Database) → Puts t0 (record_key.NewOrder key) None (database tables.old) (database tables.new) }
{
    tables.new_orders.remove(&key);
}

fn put_warehouse(
    tables: &mut Tables,
    population: &Tables,
    key: u32,
    words: &Payload,
) -> Result<(), AllocError>
    requires population { IsWellFormed (database population.now) }
    requires lawful { IsScale (database population.now).scale }
    requires key { IsRecordKey (database population.now).scale (record_key.Warehouse key) }
    requires words { MayHold (database population.now).scale (record_key.Warehouse key) (Some words.now) }
    ensures { OnOk result (Puts (database population.now) (record_key.Warehouse key) (Some words.now)
        (database tables.old) (database tables.new)) }
{
    let first = population.warehouses.get(&key).unwrap();
    let columns: WarehouseColumns = row_of(&population.scale, words);
    let row = Warehouse {
        year_to_date: columns.year_to_date,
        ..*first
    };
    tables.warehouses.insert(key, row)?;
    Ok(())
}

fn put_district(
    tables: &mut Tables,
    population: &Tables,
    key: DistrictKey,
    words: &Payload,
) -> Result<(), AllocError>
    requires population { IsWellFormed (database population.now) }
    requires lawful { IsScale (database population.now).scale }
    requires key { IsRecordKey (database population.now).scale (record_key.District key) }
    requires words { MayHold (database population.now).scale (record_key.District key) (Some words.now) }
    ensures { OnOk result (Puts (database population.now) (record_key.District key) (Some words.now)
        (database tables.old) (database tables.new)) }
{
    let first = population.districts.get(&key).unwrap();
    let columns: DistrictColumns = row_of(&population.scale, words);
    let row = District {
        year_to_date: columns.year_to_date,
        next_order: columns.next_order,
        ..*first
    };
    tables.districts.insert(key, row)?;
    Ok(())
}

fn put_customer(
    tables: &mut Tables,
    population: &Tables,
    key: CustomerKey,
    words: &Payload,
) -> Result<(), AllocError>
    requires population { IsWellFormed (database population.now) }
    requires lawful { IsScale (database population.now).scale }
    requires key { IsRecordKey (database population.now).scale (record_key.Customer key) }
    requires words { MayHold (database population.now).scale (record_key.Customer key) (Some words.now) }
    ensures { OnOk result (Puts (database population.now) (record_key.Customer key) (Some words.now)
        (database tables.old) (database tables.new)) }
{
    let first = population.customers.get(&key).unwrap();
    let columns: CustomerColumns = row_of(&population.scale, words);
    let row = Customer {
        balance: columns.balance,
        paid: columns.paid,
        payments: columns.payments,
        deliveries: columns.deliveries,
        ..*first
    };
    tables.customers.insert(key, row)?;
    Ok(())
}

fn put_new_order(
    tables: &mut Tables,
    population: &Tables,
    key: OrderKey,
    words: &Payload,
) -> Result<(), AllocError>
    requires population { IsWellFormed (database population.now) }
    requires lawful { IsScale (database population.now).scale }
    requires key { IsRecordKey (database population.now).scale (record_key.NewOrder key) }
    requires words { MayHold (database population.now).scale (record_key.NewOrder key) (Some words.now) }
    ensures { OnOk result (Puts (database population.now) (record_key.NewOrder key) (Some words.now)
        (database tables.old) (database tables.new)) }
{
    tables.new_orders.insert(key, NewOrder)?;
    Ok(())
}

fn put_order(
    tables: &mut Tables,
    population: &Tables,
    key: OrderKey,
    words: &Payload,
) -> Result<(), AllocError>
    requires population { IsWellFormed (database population.now) }
    requires lawful { IsScale (database population.now).scale }
    requires key { IsRecordKey (database population.now).scale (record_key.Order key) }
    requires words { MayHold (database population.now).scale (record_key.Order key) (Some words.now) }
    ensures { OnOk result (Puts (database population.now) (record_key.Order key) (Some words.now)
        (database tables.old) (database tables.new)) }
{
    let row: Order = row_of(&population.scale, words);
    tables.orders.insert(key, row)?;
    Ok(())
}

fn put_line(
    tables: &mut Tables,
    population: &Tables,
    key: LineKey,
    words: &Payload,
) -> Result<(), AllocError>
    requires population { IsWellFormed (database population.now) }
    requires lawful { IsScale (database population.now).scale }
    requires key { IsRecordKey (database population.now).scale (record_key.OrderLine key) }
    requires words { MayHold (database population.now).scale (record_key.OrderLine key) (Some words.now) }
    ensures { OnOk result (Puts (database population.now) (record_key.OrderLine key) (Some words.now)
        (database tables.old) (database tables.new)) }
{
    let row: OrderLine = row_of(&population.scale, words);
    tables.lines.insert(key, row)?;
    Ok(())
}

fn put_stock(
    tables: &mut Tables,
    population: &Tables,
    key: StockKey,
    words: &Payload,
) -> Result<(), AllocError>
    requires population { IsWellFormed (database population.now) }
    requires lawful { IsScale (database population.now).scale }
    requires key { IsRecordKey (database population.now).scale (record_key.Stock key) }
    requires words { MayHold (database population.now).scale (record_key.Stock key) (Some words.now) }
    ensures { OnOk result (Puts (database population.now) (record_key.Stock key) (Some words.now)
        (database tables.old) (database tables.new)) }
{
    let row: Stock = row_of(&population.scale, words);
    tables.stock.insert(key, row)?;
    Ok(())
}

/// The row of words that are some row's, within its ranges.
fn row_of<T: Row>(scale: &Scale, words: &Payload) -> T
    requires { IsRow T.words_of (T.are scale.now) (Some words.now) }
    ensures range { T.are scale.now result }
    ensures words { words.now ≡ T.words_of result }
{
    T::read(scale, words).unwrap()
}
