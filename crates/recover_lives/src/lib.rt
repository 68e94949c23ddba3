//! What is true over many lives of a database: its log files outlive each process, and a restart declares void what the
//! crash before it took. The functions of this crate do nothing: their contracts are the laws.
#![tactic(auto)]

ghost use Rattle.std.specs.Prelude.{◌≡◌, ℕ, ◌≤◌, List, []};
ghost use Rattle.log_text.specs.Bodies.{BodyView};
ghost use Rattle.book.specs.declared.entry.Entry.{Entry as CommittedEntry};
ghost use Rattle.logfile.specs.Standing.{LogFileView};
ghost use Rattle.recover_crashes.specs.World.{Life, DiskView, World, IsFirst, opening};
ghost use Rattle.recover_crashes.specs.Events.{Event, MayHappenInTurn, world_after_all};
ghost use Rattle.recover_crashes.specs.Recovering.{Crashes};
ghost use Rattle.recover_laws.specs.Recovered.{IsFirstDatabase};
ghost use Rattle.recover_lives.specs.World.{Origin, Declaring, Lives, Down, Restarting, Running, origin_of, first_world};
ghost use Rattle.recover_lives.specs.World.{joined_history, released_by, durable_at, disk_at};
ghost use Rattle.recover_lives.specs.Events.{LivesEvent, Stop, Crash, MayOccur, MayOccurInTurn, MayStrike};
ghost use Rattle.recover_lives.specs.Events.{struck, lives_after, lives_after_all};
ghost use Rattle.recover_lives.specs.Surviving.{LeavesTheReplay, IsLawfulOverLives};

use recover_laws::rebuilt_tables_are_the_replay;

/// Whatever happens over the lives of a database, any number of crashes and restarts and whatever happens within each
/// life, each event where it may, and whatever string a crash then leaves on each disk: the strings are log files; the
/// least of their last marks is no less than D; what counts in them, the entries up to that in no epoch that any file
/// declares void, is a beginning of what has committed over all lives, with each entry whose reply was released in
/// whatever life; and tables that are rebuilt of them are its replay (Silo, section 4.10). So a crash inside a restart
/// is survived too.
pub fn every_crash_is_survived()
    ensures { (life : Life) (files : ℕ → LogFileView DiskView)
        (events : List LivesEvent) (strings : ℕ → List ℕ)
        → IsFirstDatabase life.first → IsFirst life files
        → MayOccurInTurn (origin_of life) (first_world life files) events
        → MayStrike (origin_of life) (lives_after_all (origin_of life) (first_world life files) events) strings
        → LeavesTheReplay (origin_of life)
        (lives_after_all (origin_of life) (first_world life files) events) strings }
{
    rebuilt_tables_are_the_replay();
}

/// D never falls, in a life, by a crash, or from one life to the next.
pub fn durable_epoch_never_falls()
    ensures { (life : Life) (files : ℕ → LogFileView DiskView) (events later : List LivesEvent)
        → IsFirstDatabase life.first → IsFirst life files
        → MayOccurInTurn (origin_of life) (first_world life files) events
        → MayOccurInTurn (origin_of life) (lives_after_all (origin_of life) (first_world life files) events) later
        → durable_at (lives_after_all (origin_of life) (first_world life files) events)
        ≤ durable_at (lives_after_all (origin_of life)
        (lives_after_all (origin_of life) (first_world life files) events) later) }
{
    rebuilt_tables_are_the_replay();
}

/// In every world that the lives of a database reach, whatever a crash then leaves: each entry of the history with an
/// epoch up to D that isn't void stands in its logger's file; while a life runs none is of a void epoch; and an entry
/// that stands in a file but isn't of the history is of an epoch above D or a void one.
pub fn durable_epoch_stays_lawful()
    ensures { (life : Life) (files : ℕ → LogFileView DiskView)
        (events : List LivesEvent) (strings : ℕ → List ℕ)
        → IsFirstDatabase life.first → IsFirst life files
        → MayOccurInTurn (origin_of life) (first_world life files) events
        → MayStrike (origin_of life) (lives_after_all (origin_of life) (first_world life files) events) strings
        → IsLawfulOverLives (origin_of life) (lives_after_all (origin_of life) (first_world life files) events)
        strings }
{
    rebuilt_tables_are_the_replay();
}

/// A crash of a first life, whatever happened in it: the case of one life, and no restart.
pub fn crash_of_a_first_life_is_survived()
    ensures { (life : Life) (files : ℕ → LogFileView DiskView) (events : List Event) (strings : ℕ → List ℕ)
        → IsFirstDatabase life.first → IsFirst life files → MayHappenInTurn life (opening life.plan files) events
        → Crashes life (world_after_all (opening life.plan files) events) strings
        → LeavesTheReplay (origin_of life)
        (Running life [] [] (world_after_all (opening life.plan files) events)) strings }
{
    every_crash_is_survived();
}

/// A process may end at any moment, while a life runs and while it restarts. It leaves the disks as they are, and with
/// them D, what has committed, and whose replies were released.
pub fn a_process_may_end_anywhere()
    ensures running { (o : Origin) (life : Life) (past earlier : List CommittedEntry) (now : World)
        → MayOccur o (Running life past earlier now) Stop }
    ensures restarting { (o : Origin) (old : ℕ → List BodyView) (durable top : ℕ) (files : ℕ → LogFileView DiskView)
        (steps : ℕ → Declaring) (history released : List CommittedEntry)
        → MayOccur o (Restarting old durable top files steps history released) Stop }
    ensures leaves { (o : Origin) (w : Lives)
        → lives_after o w Stop ≡ Down (disk_at w) (durable_at w) (joined_history w) (released_by w) }
{}

/// A crash may come at any moment, within a life, within a restart and where there is no process, and leave on each
/// disk whatever that may leave; there are always such strings. Each disk then has just its string, which is sure; D,
/// what has committed, and whose replies were released stay as they are.
pub fn a_crash_may_come_anywhere()
    ensures comes { (o : Origin) (w : Lives) (strings : ℕ → List ℕ) → MayStrike o w strings
        → MayOccur o w (Crash strings) }
    ensures always { (o : Origin) (w : Lives) → (strings : ℕ → List ℕ) × MayOccur o w (Crash strings) }
    ensures leaves { (o : Origin) (w : Lives) (strings : ℕ → List ℕ)
        → lives_after o w (Crash strings)
        ≡ Down (struck strings) (durable_at w) (joined_history w) (released_by w) }
{}
