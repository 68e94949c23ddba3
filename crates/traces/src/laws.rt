//! What is true of each moment of a trace. The functions of this file do nothing: their contracts are the laws.
ghost use Rattle.std.specs.Prelude.{◌≡◌, ℕ, List, [], length, take};
ghost use Rattle.logfile.specs.Standing.{LogFileView};
ghost use Rattle.recover_crashes.specs.Recovering.{Crashes, Recovers};
ghost use Rattle.recover_crashes.specs.World.{Life, DiskView, World, IsFirst, opening};
ghost use Rattle.recover_laws.specs.Recovered.{IsFirstDatabase};
ghost use Rattle.recover_lives.specs.World.{Running, origin_of};
ghost use Rattle.recover_lives.specs.Surviving.{LeavesTheReplay};
ghost use Rattle.traces.specs.First.{AreOfFirstLife};
ghost use Rattle.traces.specs.Moments.{AreEvents, IsAsRecorded};
ghost use Rattle.traces.specs.Told.{TraceView, MayBeTakenInTurn, world_told_by};
ghost use Rattle.traces.specs.declared.step.Step.{Step as TraceStep};

use recover_crashes::crash_of_a_first_life_recovers;
use recover_lives::crash_of_a_first_life_is_survived;

/// Steps that may be taken one after another are a list of the crash world's events, each of which may happen where it
/// does; and so is each beginning of them, which is what has happened up to some moment.
pub fn each_beginning_is_a_list_of_events()
    ensures { (life : Life) (t : TraceView) (w : World) (steps : List TraceStep)
        → MayBeTakenInTurn life t w steps → (n : ℕ) → AreEvents life t w (take n steps) }
{}

/// The world at each moment of a first life is what was recorded up to then: what has committed, the disks, and the
/// replies that were released.
pub fn each_moment_is_as_recorded()
    ensures { (life : Life) (t : TraceView) (steps : List TraceStep) → (first : AreOfFirstLife life t steps)
        → length t.disks ≡ life.plan.loggers → (n : ℕ)
        → IsAsRecorded t (take n steps) (world_told_by t (opening life.plan first.files) (take n steps)) }
{}

/// So at each moment of a first life whose trace the checker accepts, whatever a crash then leaves is recovered: the
/// strings are log files that hold the history of that moment; the least of their last marks is no less than D; and
/// each entry whose reply was released by then is among the entries up to it. Where the life begins with the first
/// tables of a database, those entries are legal, and tables that are rebuilt of the files are their replay.
pub fn each_moment_is_recovered()
    ensures { (life : Life) (files : ℕ → LogFileView DiskView) (t : TraceView) (steps : List TraceStep) (n : ℕ)
        (strings : ℕ → List ℕ) → IsFirst life files → MayBeTakenInTurn life t (opening life.plan files) steps
        → Crashes life (world_told_by t (opening life.plan files) (take n steps)) strings
        → Recovers life.first life (world_told_by t (opening life.plan files) (take n steps)).history
        (world_told_by t (opening life.plan files) (take n steps)).released
        (world_told_by t (opening life.plan files) (take n steps)).durable strings
        × (IsFirstDatabase life.first → LeavesTheReplay (origin_of life)
        (Running life [] [] (world_told_by t (opening life.plan files) (take n steps))) strings) }
{
    crash_of_a_first_life_recovers();
    crash_of_a_first_life_is_survived();
}
