//! What the totals of tables come to after a commit. Each function here does nothing: its contract is the law.

ghost use Rattle.std.specs.Prelude.{◌≡◌, ℕ, ◌<◌, Option, List};
ghost use Rattle.tables.specs.Sizes.{IsScale};
ghost use Rattle.tables.specs.Inputs.{IsInput};
ghost use Rattle.tables.specs.Apply.{after};
ghost use Rattle.tables.specs.Records.{narrow_count, record_count};
ghost use Rattle.tables.specs.Rows.{rows};
ghost use Rattle.tables.specs.WellFormed.{IsWellFormed};
ghost use Rattle.tables.specs.Conditions.{IsConsistent};
ghost use Rattle.tables.specs.Database.{Database};
ghost use Rattle.tables.specs.declared.input.Input.{Input};
ghost use Rattle.tables.specs.declared.reply.Reply.{Reply};
ghost use Rattle.readset.specs.Writes.{WriteSetView};
ghost use Rattle.readset.specs.Commit.{IsCommitOf};
ghost use Rattle.totals.specs.Totals.{SumsView, AreSums};
ghost use Rattle.totals.specs.Moves.{SumsFollow};
ghost use Rattle.totals.specs.Opening.{SumsOpen};
ghost use Rattle.totals.specs.Written.{AreWrites};

/// Sums that were those of well-formed, consistent tables, and have followed a transaction's writes and its HISTORY
/// row, are those of the tables after it.
pub fn sums_follow_commits()
    ensures { (t : Database) (x : Input) (writes : WriteSetView) (reply : Reply) (held : ℕ → Option (List ℕ))
        (v next : SumsView) → IsScale t.scale → IsInput t.scale x → IsWellFormed t → IsConsistent t
        → IsWellFormed (after t x) → IsCommitOf t x writes reply → AreWrites t.scale writes
        → ((n : ℕ) → n < record_count t.scale → held n ≡ rows t n) → AreSums t.scale t v
        → SumsFollow t.scale held writes v next → AreSums (after t x).scale (after t x) next }
{}

/// The sums that have counted all records and HISTORY rows of well-formed, consistent tables are those of the tables.
pub fn sums_begin_with_tables()
    ensures { (t : Database) (held : ℕ → Option (List ℕ)) (v : SumsView) → IsScale t.scale → IsWellFormed t
        → IsConsistent t → ((n : ℕ) → n < narrow_count t.scale → held n ≡ rows t n)
        → SumsOpen t.scale held t.history v → AreSums t.scale t v }
{}
