//! Tables by what their records hold: tables from the words of records, and the laws that a population, the words of
//! each row's record and HISTORY determine the tables.
//!
//! Each function of this file does nothing: its contract is the law.
#![tactic(auto)]

ghost use Rattle.std.specs.Prelude.{◌≡◌, ℕ, Option, List};
ghost use Rattle.tables.specs.Constant.{IsOf};
ghost use Rattle.tables.specs.Database.{Database};
ghost use Rattle.tables.specs.Records.{IsRecordKey};
ghost use Rattle.tables.specs.Rows.{row_at, rows};
ghost use Rattle.tables.specs.WellFormed.{IsWellFormed};
ghost use Rattle.tables.specs.declared.records.RecordKey.{RecordKey};
ghost use Rattle.encoding.specs.Held.{IsTableRecord, by_key, AreTables};
ghost use Rattle.encoding.specs.Newest.{AreLawful};
ghost use Rattle.encoding.specs.Puts.{MayHold};

mod beginnings;
mod building;
mod first;
mod laws;
mod putting;
mod texts;

pub use building::{row_count, tables_of};
pub use first::first_versions;
pub use laws::well_formed_where_rows_belong;
pub use putting::{put, put_text, take_out};
pub use texts::first_texts;

/// Two well-formed tables that a population's may become are the same where the records of rows and of C_DATA hold the
/// same and HISTORY is the same. Nothing is asked of the index records.
pub fn records_determine_tables()
    ensures { (t0 t u : Database) → IsOf t0 t → IsOf t0 u → IsWellFormed t → IsWellFormed u
        → ((n : ℕ) → IsTableRecord t0.scale n → rows t n ≡ rows u n) → t.history ≡ u.history → t ≡ u }
{}

/// The same of tables that are told by their values: well-formed tables that a population's may become are so
/// told by what their records hold, and values and HISTORY leave one choice of tables.
pub fn values_determine_tables()
    ensures of_records { (t0 t : Database) (values : ℕ → Option (List ℕ)) → IsOf t0 t → IsWellFormed t
        → ((n : ℕ) → IsTableRecord t0.scale n → rows t n ≡ values n)
        → AreTables t0 (by_key t0.scale values) t }
    ensures one { (t0 t u : Database) (values : RecordKey → Option (List ℕ)) → AreTables t0 values t
        → AreTables t0 values u → t.history ≡ u.history → t ≡ u }
{}

/// What the records of well-formed tables hold is what records may hold. Tables of some values hold these values, so
/// that they are tables of what they hold; and where these may be held the tables are what the population's may become.
pub fn values_are_held()
    ensures may_hold { (t : Database) → IsWellFormed t → (k : RecordKey) → IsRecordKey t.scale k
        → MayHold t.scale k (row_at t k) }
    ensures lawful { (t : Database) → IsWellFormed t → AreLawful t.scale (rows t) }
    ensures rows { (t0 t : Database) (values : ℕ → Option (List ℕ)) → AreTables t0 (by_key t0.scale values) t
        → (n : ℕ) → IsTableRecord t0.scale n → rows t n ≡ values n }
    ensures own { (t0 t : Database) (values : ℕ → Option (List ℕ)) → AreTables t0 (by_key t0.scale values) t
        → AreTables t0 (by_key t0.scale (rows t)) t }
    ensures population { (t0 t : Database) (values : RecordKey → Option (List ℕ)) → IsWellFormed t0
        → ((k : RecordKey) → IsRecordKey t0.scale k → MayHold t0.scale k (values k))
        → AreTables t0 values t → IsOf t0 t }
{}
