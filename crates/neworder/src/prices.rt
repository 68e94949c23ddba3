//! What the lines of an order cost (TPC-C 2.4.2.2).
ghost use Rattle.std.specs.Prelude.{◌≡◌, ◌≤◌, ◌*ℤ◌, ◌≤ℤ◌, pos, true, false, is_some, length, None, Some, IfSome};
ghost use Rattle.std.specs.Prelude.{IfNone, All};
ghost use Rattle.std.specs.FinMap.{get};
ghost use Rattle.tables.specs.NewOrder.{IsRequestedLine, line_amount};
ghost use Rattle.tables.specs.declared.limits.TheConstants.{MAX_ORDER_LINES, MAX_PRICE, MAX_QUANTITY};
ghost use Rattle.population.specs.Initial.{initial};
ghost use Rattle.neworder.specs.Priced.{IsPricing};

use money::Cents;
use population::Population;
use std::alloc::Global;
use tables::RequestedLine;

/// OL_AMOUNT of each line of an order, in their order, and their sum.
#[derive(Drop)]
pub(crate) struct Priced {
    pub(crate) amounts: Vec<Cents>,
    pub(crate) sum: Cents,
}

/// How the pricing of an order's lines ended.
#[derive(Drop)]
pub(crate) enum Pricing {
    /// Each line names an item of ITEM.
    Priced(Priced),
    /// The first item that isn't in ITEM.
    ItemMissing(u32),
    /// Memory was wanted and refused.
    OutOfMemory,
}

/// OL_AMOUNT of each line: the item's price times the quantity. ITEM never changes, so the population's rows are those
/// of any later tables. No cell is read. Takes memory for the amounts.
pub(crate) fn price_lines(
    alloc: Global,
    population: &Population,
    lines: &[RequestedLine],
) -> Pricing
    requires lines { All (IsRequestedLine (initial population.now).scale) lines.now }
    requires count { length lines.now ≤ MAX_ORDER_LINES }
    ensures { IsPricing (initial population.now) lines.now result }
{
    let Ok(mut amounts) = Vec::with_capacity(alloc, lines.len()) else {
        return Pricing::OutOfMemory;
    };
    let mut sum = Cents::new(0);
    for line in lines {
        let Some(amount) = price_line(population, line) else {
            return Pricing::ItemMissing(line.item);
        };
        sum = sum + amount;
        let Ok(()) = amounts.push(amount) else {
            return Pricing::OutOfMemory;
        };
    }
    Pricing::Priced(Priced { amounts, sum })
}

/// OL_AMOUNT of a line: from 0 to 100,000 cents. None exactly where its item isn't in ITEM.
fn price_line(population: &Population, line: &RequestedLine) -> Option<Cents>
    requires { line.now.quantity ≤ MAX_QUANTITY }
    ensures amount { IfSome result (λ amount. amount ≡ line_amount (initial population.now) line.now) }
    ensures range { IfSome result (λ amount. (pos 0 ≤ℤ amount) × (amount ≤ℤ pos 100000)) }
    ensures there { IfSome result (λ _. is_some (get (initial population.now).items line.now.item) ≡ true) }
    ensures missing { IfNone result (is_some (get (initial population.now).items line.now.item) ≡ false) }
{
    let price = population.price(line.item)?;
    Some(times(line.quantity, price))
}

/// So many items at this price.
#[tactic(auto, using(tables_laws::proofs::LineAmount::amount_in_range))]
fn times(quantity: u32, price: Cents) -> Cents
    requires quantity { quantity ≤ MAX_QUANTITY }
    requires low { pos 0 ≤ℤ price }
    requires high { price ≤ℤ MAX_PRICE }
    ensures amount { result ≡ pos quantity *ℤ price }
    ensures range { (pos 0 ≤ℤ result) × (result ≤ℤ pos 100000) }
{
    Cents::new(i64::from(quantity) * price.amount())
}
