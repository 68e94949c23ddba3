//! The HISTORY rows behind the population's.
ghost use Rattle.std.specs.Prelude.{◌≡◌, ◌++◌, map, IfOk};
ghost use Rattle.std.specs.Arc.{arc_value};
ghost use Rattle.book.specs.History.{rows_added};

use crate::entry::Entry;
use std::alloc::{AllocError, Global};
use std::sync::Arc;
use tables::History;

/// These rows, and behind them those that entries added to HISTORY, in order. Costs a pass over both.
pub(crate) fn joined_rows(
    alloc: Global,
    rows: &[History],
    entries: &[Arc<Entry, Global>],
) -> Result<Vec<History>, AllocError>
    ensures { IfOk result (λ joined. joined.items ≡ rows.now ++ rows_added (map arc_value entries.now)) }
{
    let mut joined = Vec::new(alloc);
    joined.extend_from_slice(rows)?;
    for entry in entries {
        if let Some(row) = entry.writes.history_row() {
            joined.push(row)?;
        }
    }
    Ok(joined)
}
