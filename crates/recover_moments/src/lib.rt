//! What is true at every moment of a run, of whatever its threads have done by then: by what the types of its parts and
//! the rules of its tables keep, and no list of events. The functions of this crate do nothing: their contracts are the
//! laws.
#![tactic(auto)]

ghost use Rattle.std.specs.Prelude.{◌≡◌, ℕ, ◌<◌, List, ◌++◌};
ghost use Rattle.log_disk.specs.Crashes.{MayLeave};
ghost use Rattle.log_text.specs.Bodies.{BodyView};
ghost use Rattle.board.specs.Words.{durable_in};
ghost use Rattle.book.specs.declared.entry.Entry.{Entry as CommittedEntry};
ghost use Rattle.logfile.specs.Standing.{LogFileView};
ghost use Rattle.tables.specs.Database.{Database};
ghost use Rattle.recover_crashes.specs.World.{Life, DiskView, World, IsFirst};
ghost use Rattle.recover_crashes.specs.Recovering.{IsBase, Recovers};
ghost use Rattle.recover_laws.specs.Recovered.{IsFirstDatabase};
ghost use Rattle.recover_lives.specs.World.{Lives, Running, origin_of, first_world};
ghost use Rattle.recover_lives.specs.Events.{LivesEvent, MayOccurInTurn, MayStrike, lives_after_all};
ghost use Rattle.recover_lives.specs.Surviving.{LeavesTheReplay};
ghost use Rattle.recover_moments.specs.Moments.{Moment, IsMoment, world_at};

use recover_laws::rebuilt_tables_are_the_replay;

/// Whatever a crash leaves at a moment of a life, of those strings that each disk may leave then, is log files that hold
/// the history, past and new, up to an epoch that is no less than the board's D, with each entry whose reply was
/// released by then, in this life or before (Silo, section 4.10). A moment is any state of words, files, seats and
/// passes which meets the rules of the board and of the annals and of which the parts' types keep what they do; inside
/// an append too, each of whose calls of the device is one.
pub fn every_moment_recovers()
    ensures { (t0 : Database) (life : Life) (old : ℕ → List BodyView) (past earlier : List CommittedEntry) (m : Moment)
        (strings : ℕ → List ℕ)
        → IsBase t0 life old past earlier → IsMoment life old m
        → ((l : ℕ) → l < life.plan.loggers → MayLeave (m.logger l).file.disk.story (strings l))
        → Recovers t0 life (past ++ m.history) (m.released ++ earlier) (durable_in m.words) strings }
{}

/// The same over the lives of a database: a life that runs, however many crashes and restarts came before it, stands on
/// a base; and from each of its moments on, whatever happens then, in this life, over crashes, and in lives behind
/// them, every crash is survived.
pub fn every_moment_of_each_life_is_survived()
    ensures { (life : Life) (files : ℕ → LogFileView DiskView) (before : List LivesEvent) (running : Life)
        (past earlier : List CommittedEntry) (now : World)
        → IsFirstDatabase life.first → IsFirst life files
        → MayOccurInTurn (origin_of life) (first_world life files) before
        → lives_after_all (origin_of life) (first_world life files) before ≡ Running running past earlier now
        → ((old : ℕ → List BodyView) × IsBase life.first running old past earlier
        × ((m : Moment) (later : List LivesEvent) (strings : ℕ → List ℕ) → IsMoment running old m
        → MayOccurInTurn (origin_of life) (Running running past earlier (world_at running m)) later
        → MayStrike (origin_of life)
        (lives_after_all (origin_of life) (Running running past earlier (world_at running m)) later) strings
        → LeavesTheReplay (origin_of life)
        (lives_after_all (origin_of life) (Running running past earlier (world_at running m)) later) strings)) }
{
    rebuilt_tables_are_the_replay();
}
