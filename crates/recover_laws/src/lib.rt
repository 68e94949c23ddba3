//! What entries of log files make of tables, and that of the files of a history it is the replay of the part of it that
//! they keep (Silo, section 4.10). The crate has definitions and laws, and no code.
#![tactic(auto)]

ghost use Rattle.std.specs.Prelude.{ℕ, ◌<◌, List, [], length, slice_index_or};
ghost use Rattle.tables.specs.Sizes.{Sizes};
ghost use Rattle.tables.specs.Database.{Database};
ghost use Rattle.log_text.specs.Bodies.{BodyView};
ghost use Rattle.book.specs.declared.entry.Entry.{Entry as CommittedEntry};
ghost use Rattle.book.specs.Stamps.{AreStamped};
ghost use Rattle.recover_crashes.specs.Recovering.{HoldTheHistory};
ghost use Rattle.recover_laws.specs.Recovered.{IsHistoryOf, HoldTheCut, GiveTheReplay};

use encoding::values_determine_tables;

/// Files that hold a history, each in its entries that aren't void a beginning of its logger's stream with all up to
/// the file's last mark, hold what counts of it: the entries up to the durable epoch. The function does nothing: its
/// contract is the law.
pub fn files_hold_the_cut()
    ensures { (s : Sizes) (files : List (List BodyView)) (history : List CommittedEntry)
        → AreStamped history → HoldTheHistory s (length files) (λ l. slice_index_or files l []) history
        → HoldTheCut s files history }
{}

/// Whoever rebuilds tables of what log files keep of a history has the replay of just that: it is a beginning of the
/// history, and there is no gap in it. The function does nothing: its contract is the law.
pub fn rebuilt_tables_are_the_replay()
    ensures { (t0 : Database) (files : List (List BodyView)) (history : List CommittedEntry)
        → IsHistoryOf t0 history → HoldTheCut t0.scale files history → 0 < length files
        → GiveTheReplay t0 files history }
{
    values_determine_tables();
}
