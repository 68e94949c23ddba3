//! HISTORY's row as a write.
ghost use Rattle.std.specs.Prelude.{◌≡◌};
ghost use Rattle.log_entries.specs.Logged.{history_words, history_write};

use log_text::{Value, Write};
use money::Payload;
use tables::{History, Table, money_to_word};

/// Its seven columns.
fn history_words(row: &History) -> Payload
    ensures { result ≡ history_words row.now }
{
    [
        u64::from(row.customer),
        u64::from(row.customer_district),
        u64::from(row.customer_warehouse),
        u64::from(row.district),
        u64::from(row.warehouse),
        u64::from(row.date),
        money_to_word(row.amount),
    ]
}

/// A row that HISTORY got, at place 0.
pub(crate) fn history_write(row: &History) -> Write
    ensures { result ≡ history_write row.now }
{
    Write {
        table: Table::History,
        place: 0,
        value: Value::Columns(history_words(row)),
    }
}
