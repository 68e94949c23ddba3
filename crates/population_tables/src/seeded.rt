//! The rows of a seeded population: some columns are drawn (TPC-C 4.3.3.1), the others are as in the plain one.

ghost use Rattle.std.specs.Prelude.{◌≡◌, ◌≤◌, ◌<◌, ◌-◌, pos, ◌≤ℤ◌};
ghost use Rattle.tables.specs.declared.limits.TheConstants.{LAST_NAMES};
ghost use Rattle.population_tables.specs.First.{Seeded as SeededKind};

use crate::plain::{delivered, paid_in_district, paid_in_warehouse, rate};
use crate::source::Source;
use money::{Cents, Rate};
use population_draws::{Draws, LAST_NAME_CONSTANT, LAST_NAME_SPREAD};
use tables::limits::{
    LAST_NAMES, MAX_CARRIER, MAX_LINE_AMOUNT, MAX_ORDER_LINES, MAX_PRICE, MIN_ORDER_LINES,
};
use tables::{
    Credit, Customer, District, Item, LineKey, Order, OrderLine, Scale, Stock, Warehouse,
};

/// The stream of a seed's draws that its population comes from. Those of the terminals have lower numbers.
const POPULATION_STREAM: u64 = 1_000;

/// The source of a seeded population: its draws.
#[derive(Drop)]
pub struct Seeded {
    draws: Draws,
}

impl Seeded {
    /// The source of the population of a seed.
    pub fn new(seed: u64) -> Seeded {
        Seeded {
            draws: Draws::new(seed, POPULATION_STREAM),
        }
    }

    /// A rate from 0 to this many ten-thousandths.
    fn rate(&mut self, highest: u16) -> Rate
        requires { highest ≤ 10000 }
        ensures { result ≤ highest }
    {
        rate(self.draws.number(0, u32::from(highest)) as u16)
    }

    /// An amount of these cents at least and at most.
    fn cents(&mut self, low: u32, high: u32) -> Cents
        requires { low ≤ high }
        ensures at_least { pos low ≤ℤ result }
        ensures at_most { result ≤ℤ pos high }
    {
        Cents::new(i64::from(self.draws.number(low, high)))
    }

    /// C_LAST: a name of its own for each of the first thousand, and a drawn one for the others (TPC-C 4.3.3.1).
    fn last_name(&mut self, customer: u32) -> u32
        requires { 1 ≤ customer }
        ensures range { result < LAST_NAMES }
        ensures own { customer ≤ LAST_NAMES → result ≡ customer - 1 }
    {
        if customer <= LAST_NAMES {
            return customer - 1;
        }
        self.draws
            .skewed(LAST_NAME_SPREAD, 0, LAST_NAMES - 1, LAST_NAME_CONSTANT)
    }
}

impl Source for Seeded {
    ghost kind = { SeededKind };

    /// I_PRICE is from 1.00 to 100.00.
    fn item(&mut self, _item: u32) -> Item {
        Item {
            price: self.cents(100, MAX_PRICE as u32),
        }
    }

    /// W_TAX is from 0.0000 to 0.2000.
    fn warehouse(&mut self, scale: Scale) -> Warehouse {
        Warehouse {
            tax: self.rate(2_000),
            year_to_date: paid_in_warehouse(scale),
        }
    }

    /// S_QUANTITY is from 10 to 100.
    fn stock(&mut self) -> Stock {
        Stock {
            quantity: self.draws.number(10, 100),
            year_to_date: 0,
            orders: 0,
            remote_orders: 0,
        }
    }

    /// D_TAX is from 0.0000 to 0.2000.
    fn district(&mut self, scale: Scale) -> District {
        District {
            tax: self.rate(2_000),
            year_to_date: paid_in_district(scale),
            next_order: scale.customers() + 1,
        }
    }

    /// A customer of a drawn first name. C_DISCOUNT is from 0.0000 to 0.5000, and one of ten has bad credit.
    fn customer(&mut self, customer: u32) -> Customer {
        Customer {
            first_name: self.draws.number(0, 9_999),
            last_name: self.last_name(customer),
            discount: self.rate(5_000),
            credit: if self.draws.happens(1, 10) {
                Credit::Bad
            } else {
                Credit::Good
            },
            balance: Cents::new(-1_000),
            paid: Cents::new(1_000),
            payments: 1,
            deliveries: 0,
        }
    }

    /// Shuffles them.
    fn arrange(&mut self, customers: &mut [u32]) {
        self.draws.shuffle(customers);
    }

    /// An order of 5 to 15 lines. The carrier of a delivered one is drawn.
    fn order(&mut self, scale: Scale, order: u32, customer: u32) -> Order {
        let line_count = self.draws.number(MIN_ORDER_LINES, MAX_ORDER_LINES);
        let carrier = if order <= delivered(scale) {
            Some(self.draws.number(1, MAX_CARRIER))
        } else {
            None
        };
        Order {
            customer,
            entry_date: 1,
            carrier,
            line_count,
            all_local: true,
        }
    }

    /// A line of any item. The amount of one that isn't delivered is from 0.01 to 9,999.99.
    fn line(&mut self, scale: Scale, key: LineKey) -> OrderLine {
        let is_delivered = key.order <= delivered(scale);
        OrderLine {
            item: self.draws.number(1, scale.items()),
            supply_warehouse: key.warehouse,
            delivery_date: if is_delivered { Some(1) } else { None },
            quantity: 5,
            amount: if is_delivered {
                Cents::new(0)
            } else {
                self.cents(1, MAX_LINE_AMOUNT as u32)
            },
        }
    }
}
