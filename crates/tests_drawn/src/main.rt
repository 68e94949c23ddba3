//! Prints the rows of seeded populations and the first inputs of decks. What it must print, in `stdout`, is what
//! `tests/draws.py` prints, which has the definitions of both and nothing else in common with this.
#![tactic(auto)]

mod inputs;
mod rows;

use population_tables::seeded_tables;
use std::alloc::Global;
use tables::Scale;
use terminals_deck::{Deck, Settings};

/// The seed of all.
const SEED: u64 = 7;

/// How many inputs are taken of a deck.
const INPUTS: u32 = 60;

/// Of the large districts the customers and orders from this number on are printed: the last names of customers above
/// 1,000 are drawn.
const LAST_ROWS: u32 = 996;

fn main(rt: HostRuntime) -> anyhow::Result<()> {
    let one_warehouse = Scale::new(1, 2, 1_010, 20, 1_010, 1_000)?;
    let two_warehouses = Scale::new(2, 2, 12, 20, 60, 1_000)?;
    let three_warehouses = Scale::new(3, 2, 12, 20, 60, 1_000)?;
    let other_settings = Settings {
        last_name: 255,
        customer: 7,
        item: 1_234,
    };
    let alloc = rt.alloc();
    print_population(&rt, alloc, two_warehouses)?;
    print_last_rows(&rt, alloc, one_warehouse)?;
    print_inputs(&rt, alloc, one_warehouse, Settings::usual(), 0)?;
    print_inputs(&rt, alloc, two_warehouses, Settings::usual(), 1)?;
    print_inputs(&rt, alloc, two_warehouses, Settings::usual(), 3)?;
    print_inputs(&rt, alloc, two_warehouses, other_settings, 1)?;
    print_inputs(&rt, alloc, three_warehouses, Settings::usual(), 4)
}

/// Prints all rows of a population.
fn print_population<R: Print + Alloc>(rt: &R, alloc: Global, scale: Scale) -> anyhow::Result<()> {
    let tables = seeded_tables(alloc, scale, SEED)?;
    rows::print_rows(rt, &tables)
}

/// Prints the last customers and orders of a population.
fn print_last_rows<R: Print + Alloc>(rt: &R, alloc: Global, scale: Scale) -> anyhow::Result<()> {
    let tables = seeded_tables(alloc, scale, SEED)?;
    rows::print_customers(rt, &tables.customers, LAST_ROWS)?;
    rows::print_orders(rt, &tables.orders, LAST_ROWS)
}

/// Prints whose deck it is, and its first inputs.
fn print_inputs<R: Print + Alloc>(
    rt: &R,
    alloc: Global,
    scale: Scale,
    settings: Settings,
    terminal: u32,
) -> anyhow::Result<()> {
    let warehouses = scale.warehouses();
    let (last_name, customer, item) = (settings.last_name, settings.customer, settings.item);
    println!(rt; "deck {warehouses} {terminal} {last_name} {customer} {item}")?;
    let mut deck = Deck::new(scale, settings, SEED, terminal);
    for _ in 0..INPUTS {
        let input = deck.next(alloc)?;
        inputs::print_input(rt, &input)?;
    }
    Ok(())
}
