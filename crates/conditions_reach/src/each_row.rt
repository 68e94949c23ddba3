//! Whether a condition holds of each row of a table.

ghost use Rattle.std.specs.Prelude.{◌↔◌, IsTrue};
ghost use Rattle.std.specs.FinMap.{IsAntisymmetric, from_entries};
ghost use Rattle.tables.specs.Maps.{EachRow};

use conditions::{RowCondition, least_row};
use std::collections::BTreeMap;

/// Whether a condition holds of each row, in one pass over them.
pub(crate) fn holds_of_each<K: Ord + Copy, X, C: RowCondition<K, X>>(
    condition: &mut C,
    rows: &BTreeMap<K, X>,
) -> bool
    requires { IsAntisymmetric K.cmp }
    ensures { IsTrue result ↔ EachRow (C.holds_of condition.old) (from_entries {R = K.cmp} rows.now.entries) }
{
    least_row(condition, rows).is_none()
}
