//! Which columns the records of each table have in a log file, and within which ranges they stand.
ghost use Rattle.std.specs.Prelude.{◌≡◌, ◌≤◌};
ghost use Rattle.log_text.specs.Columns.{are_within, has_text, is_within, ranges, span, width};

use money::{MAX_MONEY, PAYLOAD_WORDS, Payload};
use tables::limits::{
    MAX_CARRIER, MAX_COUNT, MAX_DATE, MAX_LINE_AMOUNT, MAX_ORDER_LINES, MAX_PAYMENT, MAX_QUANTITY,
    MAX_STOCK, MIN_ORDER_LINES, MIN_PAYMENT, MIN_STOCK,
};
use tables::{Scale, Table};

/// The whole numbers from `low` to `high`, as words: two's complement where they are negative.
#[derive(Clone, Copy)]
pub(crate) struct Range {
    pub(crate) low: i64,
    pub(crate) high: i64,
}

/// Money in cents.
const MONEY: Range = Range {
    low: -MAX_MONEY,
    high: MAX_MONEY,
};

/// What stands past the columns of a table.
const NOTHING: Range = Range { low: 0, high: 0 };

fn span(low: u32, high: u32) -> Range
    ensures { result ≡ span low high }
{
    Range {
        low: i64::from(low),
        high: i64::from(high),
    }
}

/// Whether the records of a table hold a text in place of columns.
pub(crate) fn has_text(table: Table) -> bool
    ensures { result ≡ has_text table }
{
    matches!(table, Table::CustomerData)
}

/// How many columns the records of a table have.
pub(crate) fn width(table: Table) -> usize
    ensures width { result ≡ width table }
    ensures limit { result ≤ 7 }
{
    match table {
        Table::NewOrder | Table::Item | Table::CustomerData => 0,
        Table::Warehouse | Table::Oldest | Table::Last => 1,
        Table::District => 2,
        Table::Customer | Table::Stock => 4,
        Table::Order | Table::OrderLine => 5,
        Table::History => 7,
    }
}

/// The ranges of the columns of a table, and then those of what stands past them.
pub(crate) fn ranges(scale: &Scale, table: Table) -> [Range; PAYLOAD_WORDS]
    ensures { result ≡ ranges scale.now table }
{
    let none = NOTHING;
    let count = span(0, MAX_COUNT);
    let date = span(1, MAX_DATE);
    let district = span(1, scale.districts());
    let warehouse = span(1, scale.warehouses());
    let next_order = span(1, scale.orders() + 1);
    match table {
        Table::Warehouse => [MONEY, none, none, none, none, none, none],
        Table::District => [MONEY, next_order, none, none, none, none, none],
        Table::Customer => [MONEY, MONEY, count, count, none, none, none],
        Table::History => [
            span(1, scale.customers()),
            district,
            warehouse,
            district,
            warehouse,
            date,
            Range {
                low: MIN_PAYMENT,
                high: MAX_PAYMENT,
            },
        ],
        Table::NewOrder | Table::Item | Table::CustomerData => {
            [none, none, none, none, none, none, none]
        }
        Table::Order => [
            span(1, scale.customers()),
            date,
            span(0, MAX_CARRIER),
            span(MIN_ORDER_LINES, MAX_ORDER_LINES),
            span(0, 1),
            none,
            none,
        ],
        Table::OrderLine => [
            span(1, scale.items()),
            warehouse,
            span(0, MAX_DATE),
            span(1, MAX_QUANTITY),
            Range {
                low: 0,
                high: MAX_LINE_AMOUNT,
            },
            none,
            none,
        ],
        Table::Stock => [
            span(MIN_STOCK, MAX_STOCK),
            count,
            count,
            count,
            none,
            none,
            none,
        ],
        Table::Oldest => [next_order, none, none, none, none, none, none],
        Table::Last => [span(0, scale.orders()), none, none, none, none, none, none],
    }
}

fn is_within(range: Range, word: u64) -> bool
    ensures { result ≡ is_within range word }
{
    let number = word.cast_signed();
    range.low <= number && number <= range.high
}

/// Whether each word is within its range, and there are as many words as ranges.
fn are_within(ranges: &[Range], words: &[u64]) -> bool
    ensures { result ≡ are_within ranges.now words.now }
{
    match ranges {
        [] => words.is_empty(),
        [range, ranges @ ..] => match words {
            [] => false,
            [word, words @ ..] => is_within(*range, *word) && are_within(ranges, words),
        },
    }
}

/// Whether these are the columns of a record of the table, with 0 past them.
pub(crate) fn are_columns(scale: &Scale, table: Table, words: &Payload) -> bool
    ensures { result ≡ are_within (ranges scale.now table) words.now }
{
    let ranges = ranges(scale, table);
    are_within(&ranges, words)
}
