//! Writes a script for `tpcc script`, at the default scale but for its caps, from a sequence of draws that is the same
//! on every run. `bench_script payments N` writes N Payments by customer number: a district, a customer's district, a
//! customer and an amount are drawn evenly for each. `bench_script orders N` writes N New-Orders: a district, a
//! customer and 5 to 15 lines, each with an item and a quantity. `bench_script mix N` writes N transactions: of a
//! hundred, 45 New-Orders, 43 Payments, and 4 of each other kind; of the customers of Payments and Order-Status, 60 by
//! last name. With other words it writes nothing.
#![tactic(auto)]

ghost use Rattle.std.specs.Prelude.{◌≤◌, ◌<◌};

use money::Cents;
use std::env;

/// The numbers of the default scale.
const DISTRICTS: u32 = 10;

const CUSTOMERS: u32 = 100;

const ITEMS: u32 = 1000;

/// The amounts of a Payment, in cents (TPC-C 2.5.1.3).
const LEAST: u32 = 100;

const AMOUNTS: u32 = 499_901;

/// The lines of an order, and the quantity of a line (TPC-C 2.4.1.3 and 2.4.1.5).
const LEAST_LINES: u32 = 5;

const LINE_COUNTS: u32 = 11;

const QUANTITIES: u32 = 10;

/// The carriers of a Delivery, and the thresholds of a Stock-Level (TPC-C 2.7.1.2 and 2.8.1.2).
const CARRIERS: u32 = 10;

const LEAST_THRESHOLD: u32 = 10;

const THRESHOLDS: u32 = 11;

/// The syllables of last names (TPC-C 4.3.2.3). At the default scale the number of a name is below that of customers.
const SYLLABLES: [&str; 10] = [
    "BAR", "OUGHT", "ABLE", "PRI", "PRES", "ESE", "ANTI", "CALLY", "ATION", "EING",
];

/// A sequence of numbers that looks random: a linear congruential one, after Knuth.
#[derive(Clone, Copy)]
struct Draws {
    state: u64,
}

impl Draws {
    /// One of the numbers from 0 and below this one.
    fn below(&mut self, end: u32) -> u32
        requires { 0 < end }
        ensures { result < end }
    {
        self.state = self
            .state
            .wrapping_mul(6_364_136_223_846_793_005)
            .wrapping_add(1_442_695_040_888_963_407);
        ((self.state >> 33) % u64::from(end)) as u32
    }
}

/// Writes one Payment.
fn pay<R: Print + Alloc>(rt: &R, draws: &mut Draws) -> anyhow::Result<()> {
    let district = draws.below(DISTRICTS) + 1;
    let customer_district = draws.below(DISTRICTS) + 1;
    let customer = draws.below(CUSTOMERS) + 1;
    let amount = Cents::new(i64::from(draws.below(AMOUNTS) + LEAST));
    println!(rt; "payment 1 {district} 1 {customer_district} {customer} {amount}")?;
    Ok(())
}

/// Writes a space and a customer: 60 of a hundred by last name.
fn who<R: Print + Alloc>(rt: &R, draws: &mut Draws) -> anyhow::Result<()> {
    if draws.below(100) < 60 {
        let name = draws.below(CUSTOMERS) as usize;
        let (tens, ones) = (SYLLABLES[name / 10], SYLLABLES[name % 10]);
        print!(rt; " BAR{tens}{ones}")?;
    } else {
        let customer = draws.below(CUSTOMERS) + 1;
        print!(rt; " {customer}")?;
    }
    Ok(())
}

/// Writes one Payment by any customer.
fn pay_as_anybody<R: Print + Alloc>(rt: &R, draws: &mut Draws) -> anyhow::Result<()> {
    let district = draws.below(DISTRICTS) + 1;
    let customer_district = draws.below(DISTRICTS) + 1;
    print!(rt; "payment 1 {district} 1 {customer_district}")?;
    who(rt, draws)?;
    let amount = Cents::new(i64::from(draws.below(AMOUNTS) + LEAST));
    println!(rt; " {amount}")?;
    Ok(())
}

/// Writes one Order-Status, Delivery or Stock-Level.
fn ask<R: Print + Alloc>(rt: &R, draws: &mut Draws, kind: u32) -> anyhow::Result<()> {
    let district = draws.below(DISTRICTS) + 1;
    match kind {
        0 => {
            print!(rt; "status 1 {district}")?;
            who(rt, draws)?;
            println!(rt)?;
        }
        1 => {
            let carrier = draws.below(CARRIERS) + 1;
            println!(rt; "delivery 1 {carrier}")?;
        }
        _ => {
            let threshold = draws.below(THRESHOLDS) + LEAST_THRESHOLD;
            println!(rt; "level 1 {district} {threshold}")?;
        }
    }
    Ok(())
}

/// Writes one transaction of the standard's mix (TPC-C 5.2.3).
fn transact<R: Print + Alloc>(rt: &R, draws: &mut Draws) -> anyhow::Result<()> {
    let drawn = draws.below(100);
    if drawn < 45 {
        order(rt, draws)
    } else if drawn < 88 {
        pay_as_anybody(rt, draws)
    } else {
        ask(rt, draws, (drawn - 88) / 4)
    }
}

/// Writes one New-Order.
fn order<R: Print + Alloc>(rt: &R, draws: &mut Draws) -> anyhow::Result<()> {
    let district = draws.below(DISTRICTS) + 1;
    let customer = draws.below(CUSTOMERS) + 1;
    print!(rt; "neworder 1 {district} {customer}")?;
    for _ in 0..draws.below(LINE_COUNTS) + LEAST_LINES {
        let item = draws.below(ITEMS) + 1;
        let quantity = draws.below(QUANTITIES) + 1;
        print!(rt; " {item}:1:{quantity}")?;
    }
    println!(rt)?;
    Ok(())
}

fn main(rt: HostRuntime) -> anyhow::Result<()> {
    let mut words = env::args(&rt)?.skip(1);
    let (Some(kind), Some(count)) = (words.next(), words.next()) else {
        return Ok(());
    };
    let mut draws = Draws { state: 1 };
    for _ in 0..count.parse::<u64>()? {
        match kind.as_str() {
            "payments" => pay(&rt, &mut draws)?,
            "orders" => order(&rt, &mut draws)?,
            "mix" => transact(&rt, &mut draws)?,
            _ => return Ok(()),
        }
    }
    Ok(())
}
