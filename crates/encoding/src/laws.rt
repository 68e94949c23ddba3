//! The law that says which tables made of records are well-formed.

ghost use Rattle.std.specs.Prelude.{ℕ, Option, List, All, ◌↔◌};
ghost use Rattle.tables.specs.Database.{Database};
ghost use Rattle.tables.specs.Reach.{BelongToOrders};
ghost use Rattle.tables.specs.Records.{IsRecordKey};
ghost use Rattle.tables.specs.WellFormed.{IsWellFormed, IsHistoryRow};
ghost use Rattle.tables.specs.declared.records.RecordKey.{RecordKey};
ghost use Rattle.encoding.specs.Held.{AreTables};
ghost use Rattle.encoding.specs.Puts.{MayHold};

/// Tables whose records hold what they may, and whose HISTORY rows are within their ranges, are well-formed just where
/// NEW-ORDER rows and lines belong to orders.
pub fn well_formed_where_rows_belong()
    ensures { (t0 t : Database) (values : RecordKey → Option (List ℕ)) → IsWellFormed t0
        → ((k : RecordKey) → IsRecordKey t0.scale k → MayHold t0.scale k (values k))
        → AreTables t0 values t → All (IsHistoryRow t0.scale) t.history
        → IsWellFormed t ↔ BelongToOrders t }
{}
