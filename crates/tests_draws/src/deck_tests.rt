//! How often a deck asks for what, over 100,000 inputs of a fixed seed.

use money::Refusal;
use std::alloc::Global;
use tables::{Input, NewOrderInput, Scale};
use terminals_deck::{Deck, Settings};

const INPUTS: u32 = 100_000;

const ITEMS: u32 = 1_000;

/// How many inputs of each kind, and how many New-Orders with the item that isn't there.
#[derive(Clone, Copy)]
struct Counts {
    new_orders: u32,
    payments: u32,
    order_statuses: u32,
    deliveries: u32,
    stock_levels: u32,
    missing: u32,
}

impl Counts {
    /// Counts an input.
    fn count(&mut self, input: &Input) {
        match input {
            Input::NewOrder(order) => {
                add_one(&mut self.new_orders);
                if is_missing(order) {
                    add_one(&mut self.missing);
                }
            }
            Input::Payment(_) => add_one(&mut self.payments),
            Input::OrderStatus(_) => add_one(&mut self.order_statuses),
            Input::Delivery(_) => add_one(&mut self.deliveries),
            Input::StockLevel(_) => add_one(&mut self.stock_levels),
        }
    }
}

fn add_one(count: &mut u32) {
    *count = count.saturating_add(1);
}

/// Whether the last line is of the item past the last.
fn is_missing(order: &NewOrderInput) -> bool {
    match order.lines.as_slice().last() {
        Some(line) => line.item == ITEMS + 1,
        None => false,
    }
}

/// The counts of a terminal's deck.
fn counted(alloc: Global, seed: u64, terminal: u32) -> Result<Counts, Refusal> {
    let scale = Scale::new(4, 10, 300, ITEMS, 1_000, 1_000)?;
    let mut deck = Deck::new(scale, Settings::usual(), seed, terminal);
    let mut counts = Counts {
        new_orders: 0,
        payments: 0,
        order_statuses: 0,
        deliveries: 0,
        stock_levels: 0,
        missing: 0,
    };
    for _ in 0..INPUTS {
        let input = deck.next(alloc)?;
        counts.count(&input);
    }
    Ok(counts)
}

/// Whether a count is within a tenth of what is expected.
fn is_near(count: u32, expected: u32) -> bool {
    count.abs_diff(expected) <= expected / 10
}

#[test]
fn each_kind_has_its_share(rt: HostRuntime) -> Result<(), Refusal> {
    for (seed, terminal) in [(1, 0), (1, 1), (2, 15)] {
        let counts = counted(rt.alloc(), seed, terminal)?;
        assert!(rt; is_near(counts.new_orders, INPUTS / 100 * 45));
        assert!(rt; is_near(counts.payments, INPUTS / 100 * 43));
        assert!(rt; is_near(counts.order_statuses, INPUTS / 100 * 4));
        assert!(rt; is_near(counts.deliveries, INPUTS / 100 * 4));
        assert!(rt; is_near(counts.stock_levels, INPUTS / 100 * 4));
    }
    Ok(())
}

#[test]
fn about_one_new_order_of_a_hundred_has_the_missing_item(rt: HostRuntime) -> Result<(), Refusal> {
    let counts = counted(rt.alloc(), 1, 0)?;
    let expected = counts.new_orders / 100;
    assert!(rt; counts.missing.abs_diff(expected) <= expected / 4);
    Ok(())
}
