//! The rows of HISTORY that entries of log files add.
ghost use Rattle.std.specs.Prelude.{◌≡◌, ◌++◌, true, flat_map, OnOk};
ghost use Rattle.std.specs.Option.{option_to_list};
ghost use Rattle.tables.specs.Database.{database};
ghost use Rattle.tables.specs.Sizes.{Sizes, IsScale};
ghost use Rattle.tables.specs.WellFormed.{IsHistoryRow};
ghost use Rattle.log_text.specs.Writes.{are_writes};
ghost use Rattle.recover_found.specs.Rebuilt.{history_of_words as row_of};
ghost use Rattle.recover_files.specs.Parts.{row_added};

use crate::numbering::Commit;
use log_text::{Value, Write};
use money::Payload;
use rows::column::{H_AMOUNT, H_C_D_ID, H_C_ID, H_C_W_ID, H_D_ID, H_DATE, H_W_ID};
use std::alloc::AllocError;
use tables::{History, Table, Tables, money_from_word};

/// H_C_ID, H_C_D_ID, H_C_W_ID, H_D_ID, H_W_ID, H_DATE and H_AMOUNT of the words, which are a row's of some scale.
fn history_of(words: &Payload) -> History
    requires { (s : Sizes) × IsScale s × IsHistoryRow s (row_of words.now) }
    ensures { result ≡ row_of words.now }
{
    History {
        customer: words[H_C_ID] as u32,
        customer_district: words[H_C_D_ID] as u32,
        customer_warehouse: words[H_C_W_ID] as u32,
        district: words[H_D_ID] as u32,
        warehouse: words[H_W_ID] as u32,
        date: words[H_DATE] as u32,
        amount: money_from_word(words[H_AMOUNT]),
    }
}

/// The row that an entry's writes add to HISTORY, if they add one. One pass over them at most.
pub fn added_row(writes: &[Write]) -> Option<History>
    requires { (s : Sizes) × IsScale s × (are_writes s writes.now ≡ true) }
    ensures { result ≡ row_added writes.now }
{
    for write in writes {
        if let (Table::History, Value::Columns(words)) = (write.table, &write.value) {
            return Some(history_of(words));
        }
    }
    None
}

/// Adds the rows of commits to HISTORY, in their order. One pass over them.
pub fn add_history(tables: &mut Tables, commits: &[Commit]) -> Result<(), AllocError>
    ensures { OnOk result (database tables.new ≡ record (database tables.old) {
      history = (database tables.old).history ++ flat_map (λ c. option_to_list c.row) commits.now;
    }) }
{
    for commit in commits {
        if let Some(row) = commit.row {
            tables.history.push(row)?;
        }
    }
    Ok(())
}
