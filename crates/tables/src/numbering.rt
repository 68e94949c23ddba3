//! The numbers of the records of keys, over first numbers that are found once.

ghost use Rattle.std.specs.Prelude.{◌≡◌, ◌<◌, ◌^◌};
ghost use Rattle.std.proofs.Props.{props};
ghost use Rattle.tables.specs.Records.{first_number, record_count, narrow_count, number_of_key};
ghost use Rattle.tables.specs.Records.{IsRecordKey, IsNarrowKey};
ghost use Rattle.tables.specs.declared.records.Table.TheVariants as table;

use crate::records::{
    RecordKey, Table, place_of_customer, place_of_district, place_of_line, place_of_order,
    place_of_stock,
};
use crate::scale::Scale;

/// A scale, and where the records of each of its tables begin. Its type keeps that these are the tables' first numbers,
/// and that the number of all records fits.
#[derive(Clone, Copy, Debug)]
pub struct Numbering {
    scale: Scale,
    districts: u32,
    customers: u32,
    new_orders: u32,
    orders: u32,
    order_lines: u32,
    stocks: u32,
    oldest: u32,
    last: u32,
    texts: u32,
    ghost districts_first: { districts ≡ first_number scale table.District } by { Prim.hlevel props },
    ghost customers_first: { customers ≡ first_number scale table.Customer } by { Prim.hlevel props },
    ghost new_orders_first: { new_orders ≡ first_number scale table.NewOrder } by { Prim.hlevel props },
    ghost orders_first: { orders ≡ first_number scale table.Order } by { Prim.hlevel props },
    ghost order_lines_first: { order_lines ≡ first_number scale table.OrderLine } by { Prim.hlevel props },
    ghost stocks_first: { stocks ≡ first_number scale table.Stock } by { Prim.hlevel props },
    ghost oldest_first: { oldest ≡ first_number scale table.Oldest } by { Prim.hlevel props },
    ghost last_first: { last ≡ first_number scale table.Last } by { Prim.hlevel props },
    ghost texts_first: { texts ≡ first_number scale table.CustomerData } by { Prim.hlevel props },
    ghost fits: { record_count scale < 2 ^ 32 } by { Prim.hlevel props },
}

impl Numbering {
    /// The numbering of a scale. Takes no memory.
    #[inline(always)]
    pub fn of(scale: &Scale) -> Numbering
        ensures { result.scale ≡ scale.now }
    {
        Numbering {
            scale: *scale,
            districts: Table::District.first(scale),
            customers: Table::Customer.first(scale),
            new_orders: Table::NewOrder.first(scale),
            orders: Table::Order.first(scale),
            order_lines: Table::OrderLine.first(scale),
            stocks: Table::Stock.first(scale),
            oldest: Table::Oldest.first(scale),
            last: Table::Last.first(scale),
            texts: Table::CustomerData.first(scale),
        }
    }

    /// The number of the record of a key. Costs a product for each column of the key but the first.
    #[inline(always)]
    pub fn number_of_key(&self, key: RecordKey) -> u32
        requires { IsRecordKey self.now.scale key }
        ensures value { result ≡ number_of_key self.now.scale key }
        ensures limit { result < record_count self.now.scale }
        ensures narrow { IsNarrowKey self.now.scale key → result < narrow_count self.now.scale }
    {
        let scale = &self.scale;
        match key {
            RecordKey::Warehouse(warehouse) => warehouse - 1,
            RecordKey::District(key) => self.districts + place_of_district(scale, key),
            RecordKey::Customer(key) => self.customers + place_of_customer(scale, key),
            RecordKey::NewOrder(key) => self.new_orders + place_of_order(scale, key),
            RecordKey::Order(key) => self.orders + place_of_order(scale, key),
            RecordKey::OrderLine(key) => self.order_lines + place_of_line(scale, key),
            RecordKey::Stock(key) => self.stocks + place_of_stock(scale, key),
            RecordKey::Oldest(key) => self.oldest + place_of_district(scale, key),
            RecordKey::Last(key) => self.last + place_of_customer(scale, key),
            RecordKey::CustomerData(key) => self.texts + place_of_customer(scale, key),
        }
    }
}

/// The number of the record of a key. Who asks for more than one makes a `Numbering` once. Constant time: where the
/// compiler sees which table the key is of, only that table's first number is worked out.
#[inline(always)]
pub fn number_of_key(scale: &Scale, key: RecordKey) -> u32
    requires { IsRecordKey scale.now key }
    ensures value { result ≡ number_of_key scale.now key }
    ensures limit { result < record_count scale.now }
    ensures narrow { IsNarrowKey scale.now key → result < narrow_count scale.now }
{
    Numbering::of(scale).number_of_key(key)
}
