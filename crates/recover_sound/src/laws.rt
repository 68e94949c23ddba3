//! Laws on tables that are rebuilt of log files, and on those that a history has made.
//!
//! Each function does nothing: its contract is the law.

ghost use Rattle.std.specs.Prelude.{ℕ, ◌+◌, ◌≤◌, ◌↔◌, List, length};
ghost use Rattle.tables.specs.Database.{Database};
ghost use Rattle.tables.specs.Reach.{BelongToOrders};
ghost use Rattle.tables.specs.Sizes.{Sizes, IsScale};
ghost use Rattle.tables.specs.WellFormed.{IsWellFormed};
ghost use Rattle.tables.specs.declared.limits.TheConstants.{MAX_COMMITS};
ghost use Rattle.tables.specs.declared.rows.History.{History as HistoryRow};
ghost use Rattle.book.specs.Base.{AreReached, HasBecome, MayBegin};
ghost use Rattle.book.specs.History.{IsLegal};
ghost use Rattle.book.specs.declared.entry.Entry.{Entry as CommittedEntry};
ghost use Rattle.log_text.specs.Bodies.{BodyView};
ghost use Rattle.recover_found.specs.Found.{found};
ghost use Rattle.recover_found.specs.Rebuilt.{HaveNoGap, IsRebuilt};
ghost use Rattle.recover_files.specs.Files.{AreFiles};
ghost use Rattle.recover_sound.specs.Sound.{AreSoundTables, rows_behind_those_of};

use book::histories_stay_in_reach;

/// The commits that count in a database's log files, without a gap, are no more than the scale's commit cap: their
/// numbers are 1, 2 and so on, and no log file has one above the cap.
pub fn recovered_commits_are_within_the_cap()
    ensures { (s : Sizes) (seed : ℕ) (strings : List (List ℕ)) (files : List (List BodyView))
        → AreFiles s seed strings files → HaveNoGap (found files) → length (found files) ≤ s.commits }
{}

/// Tables that are rebuilt of a database's log files and well-formed first ones are well-formed just where their rows
/// belong to orders: entries of log files leave in records what these may hold, and HISTORY rows within their ranges.
pub fn rebuilt_tables_are_well_formed_where_rows_belong()
    ensures { (t0 t : Database) (seed : ℕ) (strings : List (List ℕ)) (files : List (List BodyView))
        → IsWellFormed t0 → AreFiles t0.scale seed strings files → IsRebuilt t0 (found files) t
        → IsWellFormed t ↔ BelongToOrders t }
{}

/// And they are tables that the first ones may have become: columns that never change are the first ones, and HISTORY
/// begins with the rows of the first.
pub fn rebuilt_tables_become()
    ensures { (t0 t : Database) (seed : ℕ) (strings : List (List ℕ)) (files : List (List BodyView))
        → IsWellFormed t0 → AreFiles t0.scale seed strings files
        → IsRebuilt t0 (found files) t → HasBecome t0 t (rows_behind_those_of t0 t) }
{}

/// A run may begin with well-formed, consistent tables that a population's have become, in reach of some commits, which
/// are no more than the cap: there is room for the commits that are left, up to 600,000.
pub fn reached_tables_may_begin()
    ensures { (t0 t : Database) (rows : List HistoryRow) (commits : ℕ) → IsScale t0.scale
        → commits ≤ t0.scale.commits → HasBecome t0 t rows → AreReached commits t
        → MayBegin t0 t rows commits }
{}

/// So a run may begin with sound tables that are rebuilt of a database's log files, behind as many commits as count in
/// these. Their number is within the cap, and the tables are well-formed.
pub fn sound_tables_may_begin()
    ensures { (t0 t : Database) (seed : ℕ) (strings : List (List ℕ)) (files : List (List BodyView))
        → IsScale t0.scale → IsWellFormed t0 → AreFiles t0.scale seed strings files
        → IsRebuilt t0 (found files) t → AreSoundTables (length (found files)) t
        → MayBegin t0 t (rows_behind_those_of t0 t) (length (found files)) }
{}

/// What a legal history leaves is well-formed and sound, behind tables that so many past commits have made, where those
/// are well-formed, consistent and in reach of them. So `is_sound` says no of no replay of what had committed.
pub fn replays_are_reached()
    ensures { (past : ℕ) (t0 t : Database) (history : List CommittedEntry) → past + length history ≤ MAX_COMMITS
        → AreReached past t0 → IsLegal past t0 history t
        → AreReached (past + length history) t × AreSoundTables (past + length history) t }
{
    histories_stay_in_reach();
}
