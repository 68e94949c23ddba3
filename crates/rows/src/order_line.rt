//! Lines of orders, all of whose columns stand in their records.

ghost use Rattle.std.specs.Prelude.{◌≤ℤ◌, pos, [], ◌∷◌};
ghost use Rattle.tables.specs.Rows.{line_words, money_word};
ghost use Rattle.tables.specs.WellFormed.{IsLineRow};
ghost use Rattle.tables.specs.declared.limits.TheConstants.{MAX_LINE_AMOUNT};
ghost use Rattle.rows.specs.Reading.{IsReading};
ghost use Rattle.rows.specs.Columns.{line_columns};

use crate::reading::{nullable, number};
use money::{Cents, Payload};
use tables::limits::{MAX_DATE, MAX_LINE_AMOUNT, MAX_QUANTITY};
use tables::{OrderLine, Scale, money_from_word};

/// The line of these words, or None where they are no line's of this scale.
pub(crate) fn line_of_words(scale: &Scale, words: &Payload) -> Option<OrderLine>
    ensures { IsReading (IsLineRow scale.now) line_words words.now result }
{
    let [
        item,
        supply_warehouse,
        delivery_date,
        quantity,
        amount,
        0,
        0,
    ] = *words
    else {
        return None;
    };
    line_of(
        scale,
        item,
        supply_warehouse,
        delivery_date,
        quantity,
        amount,
    )
}

/// The line of these columns.
fn line_of(
    scale: &Scale,
    item: u64,
    supply_warehouse: u64,
    delivery_date: u64,
    quantity: u64,
    amount: u64,
) -> Option<OrderLine>
    ensures { IsReading (IsLineRow scale.now) line_columns
        (item ∷ supply_warehouse ∷ delivery_date ∷ quantity ∷ amount ∷ []) result }
{
    Some(OrderLine {
        item: number(item, 1, scale.items())?,
        supply_warehouse: number(supply_warehouse, 1, scale.warehouses())?,
        delivery_date: nullable(delivery_date, MAX_DATE)?,
        quantity: number(quantity, 1, MAX_QUANTITY)?,
        amount: line_amount(amount)?,
    })
}

/// OL_AMOUNT, from 0 to 9,999.99.
fn line_amount(word: u64) -> Option<Cents>
    ensures { IsReading (λ z. (pos 0 ≤ℤ z) × (z ≤ℤ MAX_LINE_AMOUNT)) money_word word result }
{
    let amount = money_from_word(word);
    if Cents::new(0) <= amount && amount <= Cents::new(MAX_LINE_AMOUNT) {
        Some(amount)
    } else {
        None
    }
}
