//! What recovery gives of a database whose Payments left C_DATA alone, as those did that files of version 1 tell of.
ghost use Rattle.std.specs.Prelude.{◌≡◌, ℕ, ◌<◌, List, length};
ghost use Rattle.tables.specs.Database.{Database};
ghost use Rattle.log_text.specs.Bodies.{BodyView};
ghost use Rattle.book.specs.declared.entry.Entry.{Entry as CommittedEntry};
ghost use Rattle.logfile.specs.Standing.{LogFileView};
ghost use Rattle.recover_crashes.specs.World.{Life, DiskView, IsFirst};
ghost use Rattle.recover_laws.specs.Recovered.{IsHistoryOf, HoldTheCut, IsFirstDatabase};
ghost use Rattle.recover_lives.specs.World.{origin_of, first_world};
ghost use Rattle.recover_lives.specs.Events.{LivesEvent, MayOccurInTurn, MayStrike, lives_after_all};
ghost use Rattle.recover_files.specs.Files.{AreFilesOf};
ghost use Rattle.recover_files.specs.Recovered.{IsRecovery};
ghost use Rattle.recover.specs.Beginning.{AreInTurn};
ghost use Rattle.recover.specs.WithoutTexts.{without_texts, IsReplayWithoutTexts, IsBeginningWithoutTexts};
ghost use Rattle.recover_files.specs.declared.recovering.Recovered.{Recovered as RecoveredValue};

use recover_laws::rebuilt_tables_are_the_replay;
use recover_lives::every_crash_is_survived;

/// Tables that a database may begin with it may begin with too where its Payments leave C_DATA alone: no rule of them
/// speaks of Payments. So the laws on first tables and their histories hold of such a database. The function does
/// nothing: its contract is the law.
pub fn tables_without_texts_may_be_first()
    ensures { (t0 : Database) → IsFirstDatabase t0 → IsFirstDatabase (without_texts t0) }
{}

/// Where strings are log files, of whichever version, that hold what counts of a history in which Payments left C_DATA
/// alone, as in files of version 1, what `recover` gives is the replay of that part, up to the durable epoch, with the
/// C_DATA that the database began with. That it doesn't refuse them by `Gap` is `recovery_is_the_replay`'s. The
/// function does nothing: its contract is the law.
pub fn recovery_without_texts_is_the_replay()
    ensures { (t0 : Database) (version seed : ℕ) (strings : List (List ℕ)) (files : List (List BodyView))
        (history : List CommittedEntry) → IsHistoryOf (without_texts t0) history
        → AreFilesOf version t0.scale seed strings files
        → HoldTheCut t0.scale files history → 0 < length files
        → (r : RecoveredValue) → IsRecovery t0 seed strings r → IsReplayWithoutTexts t0 files history r }
{
    rebuilt_tables_are_the_replay();
}

/// Whatever happens over the lives of a database whose Payments leave C_DATA alone, as in those whose log files are of
/// version 1, and whatever strings a crash then leaves of its log files: what `recover` gives of them is the replay of
/// a beginning of what committed over all lives, with the C_DATA that the database began with, up to a durable epoch
/// that is no less than the board's D, with each commit whose reply was released. That it refuses them neither by
/// `Damaged` nor by `Gap` is `every_crash_is_recovered`'s. The function does nothing: its contract is the law.
pub fn every_crash_without_texts_is_recovered()
    ensures { (t0 : Database) (life : Life) (files : ℕ → LogFileView DiskView) (events : List LivesEvent)
        (by_logger : ℕ → List ℕ)
        → life.first ≡ without_texts t0 → IsFirstDatabase t0 → IsFirst life files
        → MayOccurInTurn (origin_of life) (first_world life files) events
        → MayStrike (origin_of life) (lives_after_all (origin_of life) (first_world life files) events) by_logger
        → (strings : List (List ℕ)) → AreInTurn life.plan.loggers by_logger strings
        → (r : RecoveredValue) → (is : IsRecovery t0 life.seed strings r)
        → IsBeginningWithoutTexts t0
        (lives_after_all (origin_of life) (first_world life files) events) is.files r }
{
    every_crash_is_survived();
}
