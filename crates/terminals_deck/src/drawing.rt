//! Drawing inputs.

ghost use Rattle.std.proofs.Props.{props};
ghost use Rattle.tables.specs.Sizes.{IsNumber};

use crate::drawn::Drawn;
use crate::order::{DrawnOrder, MOST_LINES};
use crate::settings::Settings;
use money::Cents;
use population_draws::{CUSTOMER_SPREAD, Draws, ITEM_SPREAD, LAST_NAME_SPREAD};
use tables::limits::{
    LAST_NAMES, MAX_CARRIER, MAX_ORDER_LINES, MAX_PAYMENT, MAX_QUANTITY, MAX_THRESHOLD,
    MIN_ORDER_LINES, MIN_PAYMENT, MIN_THRESHOLD,
};
use tables::{
    DeliveryInput, OrderStatusInput, PaymentInput, RequestedLine, Scale, StockLevelInput, Who,
};

/// Draws the inputs of a terminal, one after another. The terminal's number names the stream of the draws and the home
/// warehouse, of which every input is. Of 100 inputs about 45 are New-Orders, 43 Payments, and 4 each of the others
/// (TPC-C 5.2.3).
#[derive(Drop)]
pub struct Drawing {
    pub scale: Scale,
    settings: Settings,
    draws: Draws,
    pub home: u32,
    pub ghost at_home: { IsNumber scale.warehouses home } by { Prim.hlevel props },
}

impl Drawing {
    ghost use Rattle.std.specs.Prelude.{◌≡◌, ◌≢◌, ℕ, ◌≤◌, ◌≤ℤ◌, Some, All};
    ghost use Rattle.tables.specs.Sizes.{IsBetween, IsNumber};
    ghost use Rattle.tables.specs.Customer.{IsWho};
    ghost use Rattle.tables.specs.NewOrder.{IsNewOrder, IsRequestedLine};
    ghost use Rattle.tables.specs.Payment.{IsPayment};
    ghost use Rattle.tables.specs.OrderStatus.{IsOrderStatus};
    ghost use Rattle.tables.specs.Delivery.{IsDelivery};
    ghost use Rattle.tables.specs.StockLevel.{IsStockLevel};
    ghost use Rattle.tables.specs.declared.limits.TheConstants.{MAX_DATE, MIN_ORDER_LINES, MAX_ORDER_LINES, MIN_PAYMENT};
    ghost use Rattle.tables.specs.declared.limits.TheConstants.{MAX_PAYMENT};
    ghost use Rattle.terminals_deck.specs.Deck.{home_warehouse};
    ghost use Rattle.terminals_deck.specs.Order.{new_order_of};
    ghost use Rattle.terminals_deck.specs.Drawn.{IsDrawn};
    ghost use Rattle.terminals_deck.specs.Drawing.{OnlyDraws};

    /// Of a terminal. Its home warehouse is the remainder of the terminal's number by that of warehouses, plus 1.
    pub fn new(scale: Scale, settings: Settings, seed: u64, terminal: u32) -> Drawing
        ensures scale { result.scale ≡ scale }
        ensures home { result.home ≡ home_warehouse scale terminal }
    {
        Drawing {
            scale,
            settings,
            draws: Draws::new(seed, u64::from(terminal)),
            home: terminal % scale.warehouses() + 1,
        }
    }

    /// The next input, with this date.
    pub fn draw(&mut self, date: u32) -> Drawn
        requires { IsBetween 1 MAX_DATE date }
        ensures drawn { IsDrawn self.old.scale self.old.home date result }
        ensures same { OnlyDraws self.old self.new }
    {
        match self.draws.number(1, 100) {
            1..=45 => Drawn::NewOrder(self.new_order(date)),
            46..=88 => Drawn::Payment(self.payment(date)),
            89..=92 => Drawn::OrderStatus(self.order_status(date)),
            93..=96 => Drawn::Delivery(self.delivery(date)),
            _ => Drawn::StockLevel(self.stock_level(date)),
        }
    }

    /// A New-Order (TPC-C 2.4.1), in one of a hundred with an item that isn't there.
    fn new_order(&mut self, date: u32) -> DrawnOrder
        requires { IsBetween 1 MAX_DATE date }
        ensures room { result.count ≤ MAX_ORDER_LINES }
        ensures valid { IsNewOrder self.old.scale (new_order_of result) }
        ensures warehouse { result.warehouse ≡ self.old.home }
        ensures date { result.date ≡ date }
        ensures same { OnlyDraws self.old self.new }
    {
        let district = self.district();
        let customer = self.customer();
        let count = self.draws.number(MIN_ORDER_LINES, MAX_ORDER_LINES);
        let is_rolled_back = self.draws.happens(1, 100);
        DrawnOrder {
            date,
            warehouse: self.home,
            district,
            customer,
            count,
            lines: self.lines(count, is_rolled_back),
        }
    }

    /// This many lines, and after them some that count for nothing. In an order that is rolled back the last of them
    /// has an item that isn't there.
    fn lines(&mut self, count: u32, is_rolled_back: bool) -> [RequestedLine; MOST_LINES]
        requires { IsBetween MIN_ORDER_LINES MAX_ORDER_LINES count }
        ensures valid { All (IsRequestedLine self.old.scale) result }
        ensures same { OnlyDraws self.old self.new }
    {
        let unused = RequestedLine {
            item: 1,
            supply_warehouse: self.home,
            quantity: 1,
        };
        let mut lines = [unused; MOST_LINES];
        for place in 0..count {
            lines[place as usize] = self.line(is_rolled_back && place + 1 == count);
        }
        lines
    }

    /// A line: in one of a hundred another warehouse supplies it, if there is one. The missing item's number is the one
    /// after the last, and is taken in place of a drawn one.
    fn line(&mut self, is_missing: bool) -> RequestedLine
        ensures valid { IsRequestedLine self.old.scale result }
        ensures same { OnlyDraws self.old self.new }
    {
        let items = self.scale.items();
        let drawn = self.draws.skewed(ITEM_SPREAD, 1, items, self.settings.item);
        let supply_warehouse = self.other_warehouse(1).unwrap_or(self.home);
        RequestedLine {
            item: if is_missing { items + 1 } else { drawn },
            supply_warehouse,
            quantity: self.draws.number(1, MAX_QUANTITY),
        }
    }

    /// A Payment (TPC-C 2.5.1), in 15 of a hundred by a customer of another warehouse, if there is one.
    fn payment(&mut self, date: u32) -> PaymentInput
        requires { IsBetween 1 MAX_DATE date }
        ensures valid { IsPayment self.old.scale result }
        ensures warehouse { result.warehouse ≡ self.old.home }
        ensures date { result.date ≡ date }
        ensures same { OnlyDraws self.old self.new }
    {
        let district = self.district();
        let (customer_warehouse, customer_district) = match self.other_warehouse(15) {
            Some(other) => (other, self.district()),
            None => (self.home, district),
        };
        PaymentInput {
            date,
            warehouse: self.home,
            district,
            customer_warehouse,
            customer_district,
            who: self.who(),
            amount: self.amount(),
        }
    }

    /// An Order-Status (TPC-C 2.6.1).
    fn order_status(&mut self, date: u32) -> OrderStatusInput
        requires { IsBetween 1 MAX_DATE date }
        ensures valid { IsOrderStatus self.old.scale result }
        ensures warehouse { result.warehouse ≡ self.old.home }
        ensures date { result.date ≡ date }
        ensures same { OnlyDraws self.old self.new }
    {
        OrderStatusInput {
            date,
            warehouse: self.home,
            district: self.district(),
            who: self.who(),
        }
    }

    /// A Delivery (TPC-C 2.7.1).
    fn delivery(&mut self, date: u32) -> DeliveryInput
        requires { IsBetween 1 MAX_DATE date }
        ensures valid { IsDelivery self.old.scale result }
        ensures warehouse { result.warehouse ≡ self.old.home }
        ensures date { result.date ≡ date }
        ensures same { OnlyDraws self.old self.new }
    {
        DeliveryInput {
            date,
            warehouse: self.home,
            carrier: self.draws.number(1, MAX_CARRIER),
        }
    }

    /// A Stock-Level (TPC-C 2.8.1), of a district that is drawn each time: a terminal of the standard keeps to one.
    fn stock_level(&mut self, date: u32) -> StockLevelInput
        requires { IsBetween 1 MAX_DATE date }
        ensures valid { IsStockLevel self.old.scale result }
        ensures warehouse { result.warehouse ≡ self.old.home }
        ensures date { result.date ≡ date }
        ensures same { OnlyDraws self.old self.new }
    {
        StockLevelInput {
            date,
            warehouse: self.home,
            district: self.district(),
            threshold: self.draws.number(MIN_THRESHOLD, MAX_THRESHOLD),
        }
    }

    fn district(&mut self) -> u32
        ensures valid { IsNumber self.old.scale.districts result }
        ensures same { OnlyDraws self.old self.new }
    {
        self.draws.number(1, self.scale.districts())
    }

    fn customer(&mut self) -> u32
        ensures valid { IsNumber self.old.scale.customers result }
        ensures same { OnlyDraws self.old self.new }
    {
        let customers = self.scale.customers();
        self.draws
            .skewed(CUSTOMER_SPREAD, 1, customers, self.settings.customer)
    }

    /// The customer of a Payment or an Order-Status, in 60 of a hundred by last name (TPC-C 2.5.1.2, 2.6.1.2).
    fn who(&mut self) -> Who
        ensures valid { IsWho self.old.scale result }
        ensures same { OnlyDraws self.old self.new }
    {
        if !self.draws.happens(60, 100) {
            return Who::Id(self.customer());
        }
        let names = self.scale.customers().min(LAST_NAMES);
        let constant = self.settings.last_name;
        Who::Last(self.draws.skewed(LAST_NAME_SPREAD, 0, names - 1, constant))
    }

    /// H_AMOUNT (TPC-C 2.5.1.3).
    fn amount(&mut self) -> Cents
        ensures at_least { MIN_PAYMENT ≤ℤ result }
        ensures at_most { result ≤ℤ MAX_PAYMENT }
        ensures same { OnlyDraws self.old self.new }
    {
        let cents = self.draws.number(MIN_PAYMENT as u32, MAX_PAYMENT as u32);
        Cents::new(i64::from(cents))
    }

    /// In `chance` of a hundred another warehouse, each as likely as the others; else, and where there is no other,
    /// None.
    fn other_warehouse(&mut self, chance: u32) -> Option<u32>
        ensures valid { (w : ℕ) → result ≡ Some w → IsNumber self.old.scale.warehouses w }
        ensures other { (w : ℕ) → result ≡ Some w → w ≢ self.old.home }
        ensures same { OnlyDraws self.old self.new }
    {
        let warehouses = self.scale.warehouses();
        if !self.draws.happens(chance, 100) || warehouses < 2 {
            return None;
        }
        let step = self.draws.number(1, warehouses - 1);
        Some((self.home - 1 + step) % warehouses + 1)
    }
}
