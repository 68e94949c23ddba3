//! Where the rows of a population come from.

ghost use Rattle.std.specs.Prelude.{◌≤◌, IsPermutation};
ghost use Rattle.tables.specs.Sizes.{IsNumber, IsBetween};
ghost use Rattle.tables.specs.declared.limits.TheConstants.{MIN_ORDER_LINES, MAX_ORDER_LINES};
ghost use Rattle.population_tables.specs.First.{Kind, IsFirstItem, IsFirstWarehouse, IsFirstStock, IsFirstDistrict, IsFirstCustomer};
ghost use Rattle.population_tables.specs.First.{IsFirstOrder, IsFirstLine};

use tables::{Customer, District, Item, LineKey, Order, OrderLine, Scale, Stock, Warehouse};

/// Makes the rows of a population of one kind. A source that draws is asked in the order in which the population's
/// definition draws: items, then each warehouse with its stock and its districts.
pub trait Source {
    ghost kind: { Kind };

    /// The row of an item.
    fn item(&mut self, item: u32) -> Item
        requires { 1 ≤ item }
        ensures { IsFirstItem kind item result };

    /// The row of a warehouse.
    fn warehouse(&mut self, scale: Scale) -> Warehouse
        ensures { IsFirstWarehouse kind scale result };

    /// The stock of an item in a warehouse.
    fn stock(&mut self) -> Stock
        ensures { IsFirstStock kind result };

    /// The row of a district.
    fn district(&mut self, scale: Scale) -> District
        ensures { IsFirstDistrict kind scale result };

    /// The row of a customer.
    fn customer(&mut self, customer: u32) -> Customer
        requires { IsNumber 9999 customer }
        ensures { IsFirstCustomer kind customer result };

    /// Brings a district's customers, which stand in the order of their numbers, into that of their orders.
    fn arrange(&mut self, customers: &mut [u32])
        ensures { IsPermutation customers.old customers.new };

    /// The row of an order of a district, by the customer who stands at its number.
    fn order(&mut self, scale: Scale, order: u32, customer: u32) -> Order
        requires { IsNumber scale.customers customer }
        ensures row { IsFirstOrder kind scale order result }
        ensures count { IsBetween MIN_ORDER_LINES MAX_ORDER_LINES result.line_count };

    /// A line of an order.
    fn line(&mut self, scale: Scale, key: LineKey) -> OrderLine
        requires { IsNumber MAX_ORDER_LINES key.line }
        ensures { IsFirstLine kind scale key result };
}
