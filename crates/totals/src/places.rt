//! The places of keys among the totals: those of their records in their tables.

ghost use Rattle.std.specs.Prelude.{◌≡◌, ◌+◌, ◌-◌, ◌*◌, ◌/◌, ◌<◌, ◌≤◌, IsTrue, IsFalse};
ghost use Rattle.tables.specs.Sizes.{IsNumber};
ghost use Rattle.tables.specs.Records.{size};
ghost use Rattle.tables.specs.declared.records.Table.TheVariants as table;
ghost use Rattle.totals.specs.Counted.{counted_in, IsOfAnotherTable};

use tables::{Scale, Table};

/// The place of a column, counted from 1, of a row, counted from 0, where a row has that width.
fn place(size: u32, row: u32, width: u32, column: u32) -> u32
    requires column { 1 ≤ column }
    requires limit { row * width + (column - 1) < size }
    ensures value { result ≡ row * width + (column - 1) }
    ensures limit { result < size }
{
    let place = row * width + (column - 1);
    // The table's size bounds the sum.
    prove!(place < size);
    place
}

/// The place of an order's district, by the order's place.
pub fn district_of_order(scale: &Scale, order: u32) -> u32
    requires { order < size scale.now table.Order }
    ensures value { result ≡ order / scale.now.orders }
    ensures limit { result < size scale.now table.District }
{
    // The order cap is at least the number of customers, which isn't 0.
    prove!(scale.customers() > 0);
    order / scale.orders()
}

/// The place of a customer of a district, by the word of an order that names it.
pub fn place_of_buyer(scale: &Scale, district: u32, customer: u64) -> u32
    requires district { district < size scale.now table.District }
    requires customer { IsNumber scale.now.customers customer }
    ensures value { result ≡ district * scale.now.customers + (customer - 1) }
    ensures limit { result < size scale.now table.Customer }
{
    let customers = scale.customers();
    let most = u64::from(customers);
    prove!(customer <= most);
    let size = Table::Customer.size(scale);
    place(size, district, customers, customer as u32)
}

/// Where the records stand that sums count: those of DISTRICT, and those of NEW-ORDER, ORDER and ORDER-LINE, which
/// follow one another. Each from its first record to the one behind its last.
#[derive(Clone, Copy)]
pub struct Counted {
    pub first_district: u32,
    pub end_districts: u32,
    pub first_new_order: u32,
    pub first_order: u32,
    pub first_line: u32,
    pub end_lines: u32,
}

/// Those of a scale.
pub fn counted_records(scale: &Scale) -> Counted
    ensures { result ≡ counted_in scale.now }
{
    Counted {
        first_district: Table::District.first(scale),
        end_districts: Table::District.end(scale),
        first_new_order: Table::NewOrder.first(scale),
        first_order: Table::Order.first(scale),
        first_line: Table::OrderLine.first(scale),
        end_lines: Table::OrderLine.end(scale),
    }
}

/// Whether a record isn't among them.
pub fn is_past(counted: &Counted, number: u32) -> bool
    ensures past { IsTrue result → IsOfAnotherTable counted.now number }
    ensures first { IsFalse result → counted.now.first_district ≤ number }
    ensures between { IsFalse result → counted.now.end_districts ≤ number → counted.now.first_new_order ≤ number }
    ensures end { IsFalse result → number < counted.now.end_lines }
{
    number < counted.first_district
        || (counted.end_districts <= number && number < counted.first_new_order)
        || counted.end_lines <= number
}
