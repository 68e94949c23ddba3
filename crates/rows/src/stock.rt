//! Stock, all of whose columns stand in their records.

ghost use Rattle.tables.specs.Rows.{stock_words};
ghost use Rattle.tables.specs.WellFormed.{IsStockRow};
ghost use Rattle.rows.specs.Reading.{IsReading};

use crate::reading::number;
use money::Payload;
use tables::Stock;
use tables::limits::{MAX_COUNT, MAX_STOCK, MIN_STOCK};

/// The stock of these words, or None where they are no stock's.
pub(crate) fn stock_of_words(words: &Payload) -> Option<Stock>
    ensures { IsReading IsStockRow stock_words words.now result }
{
    let [quantity, year_to_date, orders, remote_orders, 0, 0, 0] = *words else {
        return None;
    };
    Some(Stock {
        quantity: number(quantity, MIN_STOCK, MAX_STOCK)?,
        year_to_date: number(year_to_date, 0, MAX_COUNT)?,
        orders: number(orders, 0, MAX_COUNT)?,
        remote_orders: number(remote_orders, 0, MAX_COUNT)?,
    })
}
