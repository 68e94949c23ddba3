//! Orders, all of whose columns stand in their records.

ghost use Rattle.std.specs.Prelude.{[], ◌∷◌};
ghost use Rattle.tables.specs.Rows.{order_words};
ghost use Rattle.rows.specs.Reading.{IsReading};
ghost use Rattle.rows.specs.Columns.{IsOrderOfScale, order_columns};

use crate::reading::{flag, nullable, number};
use money::Payload;
use tables::limits::{MAX_CARRIER, MAX_DATE, MAX_ORDER_LINES, MIN_ORDER_LINES};
use tables::{Order, Scale};

/// The order of these words, or None where they are no order's of this scale.
pub(crate) fn order_of_words(scale: &Scale, words: &Payload) -> Option<Order>
    ensures { IsReading (IsOrderOfScale scale.now) order_words words.now result }
{
    let [customer, entry_date, carrier, line_count, all_local, 0, 0] = *words else {
        return None;
    };
    order_of(scale, customer, entry_date, carrier, line_count, all_local)
}

/// The order of these columns.
fn order_of(
    scale: &Scale,
    customer: u64,
    entry_date: u64,
    carrier: u64,
    line_count: u64,
    all_local: u64,
) -> Option<Order>
    ensures { IsReading (IsOrderOfScale scale.now) order_columns
        (customer ∷ entry_date ∷ carrier ∷ line_count ∷ all_local ∷ []) result }
{
    Some(Order {
        customer: number(customer, 1, scale.customers())?,
        entry_date: number(entry_date, 1, MAX_DATE)?,
        carrier: nullable(carrier, MAX_CARRIER)?,
        line_count: number(line_count, MIN_ORDER_LINES, MAX_ORDER_LINES)?,
        all_local: flag(all_local)?,
    })
}
