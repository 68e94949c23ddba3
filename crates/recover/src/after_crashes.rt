//! What recovery gives of the files of a history, and after a crash.
ghost use Rattle.std.specs.Prelude.{ℕ, ◌<◌, List, length};
ghost use Rattle.tables.specs.Database.{Database};
ghost use Rattle.log_text.specs.Bodies.{BodyView};
ghost use Rattle.book.specs.declared.entry.Entry.{Entry as CommittedEntry};
ghost use Rattle.logfile.specs.Standing.{LogFileView};
ghost use Rattle.recover_crashes.specs.World.{Life, DiskView, IsFirst};
ghost use Rattle.recover_laws.specs.Recovered.{IsHistoryOf, HoldTheCut, IsFirstDatabase};
ghost use Rattle.recover_lives.specs.World.{origin_of, first_world};
ghost use Rattle.recover_lives.specs.Events.{LivesEvent, MayOccurInTurn, MayStrike, lives_after_all};
ghost use Rattle.recover_files.specs.Files.{AreFilesOf};
ghost use Rattle.recover_files.specs.Recovered.{IsRecovery, HasGap};
ghost use Rattle.recover.specs.Beginning.{AreInTurn, IsReplayOf, IsBeginningOf};
ghost use Rattle.recover_files.specs.declared.recovering.Recovered.{Recovered as RecoveredValue};

use recover_laws::rebuilt_tables_are_the_replay;
use recover_lives::every_crash_is_survived;

/// Where strings are log files, of whichever version, that hold what counts of a history, the part up to their durable
/// epoch, `recover` doesn't refuse them by `Gap`, and what it gives is the replay of that part. Entries that don't count
/// may be any. The function does nothing: its contract is the law.
pub fn recovery_is_the_replay()
    ensures no_gap { (t0 : Database) (version seed : ℕ) (strings : List (List ℕ)) (files : List (List BodyView))
        (history : List CommittedEntry) → IsHistoryOf t0 history
        → AreFilesOf version t0.scale seed strings files
        → HoldTheCut t0.scale files history → 0 < length files → HasGap t0.scale seed strings → ⊥ }
    ensures replay { (t0 : Database) (version seed : ℕ) (strings : List (List ℕ)) (files : List (List BodyView))
        (history : List CommittedEntry) → IsHistoryOf t0 history
        → AreFilesOf version t0.scale seed strings files
        → HoldTheCut t0.scale files history → 0 < length files
        → (r : RecoveredValue) → IsRecovery t0 seed strings r → IsReplayOf t0 files history r }
{
    rebuilt_tables_are_the_replay();
}

/// Whatever happens over the lives of a database, within each, in crashes and in restarts, and whatever strings a crash
/// then leaves of its log files, of whichever version: they are its log files, so that `recover` doesn't refuse them by
/// `Damaged`; they have no gap, so that it doesn't refuse them by `Gap`; and what it gives is the replay of a beginning
/// of what committed over all lives, up to a durable epoch that is no less than the board's D, with each commit whose
/// reply was released (Silo, section 4.10). The function does nothing: its contract is the law.
pub fn every_crash_is_recovered()
    ensures files { (life : Life) (files : ℕ → LogFileView DiskView) (events : List LivesEvent)
        (by_logger : ℕ → List ℕ)
        → IsFirstDatabase life.first → IsFirst life files
        → MayOccurInTurn (origin_of life) (first_world life files) events
        → MayStrike (origin_of life) (lives_after_all (origin_of life) (first_world life files) events) by_logger
        → (strings : List (List ℕ)) → AreInTurn life.plan.loggers by_logger strings
        → (left : List (List BodyView)) × AreFilesOf life.version life.first.scale life.seed strings left }
    ensures no_gap { (life : Life) (files : ℕ → LogFileView DiskView) (events : List LivesEvent)
        (by_logger : ℕ → List ℕ)
        → IsFirstDatabase life.first → IsFirst life files
        → MayOccurInTurn (origin_of life) (first_world life files) events
        → MayStrike (origin_of life) (lives_after_all (origin_of life) (first_world life files) events) by_logger
        → (strings : List (List ℕ)) → AreInTurn life.plan.loggers by_logger strings
        → HasGap life.first.scale life.seed strings → ⊥ }
    ensures recovered { (life : Life) (files : ℕ → LogFileView DiskView) (events : List LivesEvent)
        (by_logger : ℕ → List ℕ)
        → IsFirstDatabase life.first → IsFirst life files
        → MayOccurInTurn (origin_of life) (first_world life files) events
        → MayStrike (origin_of life) (lives_after_all (origin_of life) (first_world life files) events) by_logger
        → (strings : List (List ℕ)) → AreInTurn life.plan.loggers by_logger strings
        → (r : RecoveredValue) → (is : IsRecovery life.first life.seed strings r)
        → IsBeginningOf (origin_of life)
        (lives_after_all (origin_of life) (first_world life files) events) is.files r }
{
    every_crash_is_survived();
}
