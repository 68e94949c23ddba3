//! What is true of every crash. The functions of this crate do nothing: their contracts are the laws.
#![tactic(auto)]

ghost use Rattle.std.specs.Prelude.{ℕ, ◌<◌, List, [], ◌++◌};
ghost use Rattle.tables.specs.Database.{Database};
ghost use Rattle.log_text.specs.Bodies.{BodyView};
ghost use Rattle.book.specs.declared.entry.Entry.{Entry as CommittedEntry};
ghost use Rattle.logfile.specs.Standing.{LogFileView};
ghost use Rattle.recover_crashes.specs.World.{Life, DiskView, IsOpened, IsFirst, header_of, opening};
ghost use Rattle.recover_crashes.specs.Events.{Event, MayHappenInTurn, world_after_all};
ghost use Rattle.recover_crashes.specs.Recovering.{Crashes, IsBase, Recovers};
ghost use Rattle.recover_crashes.specs.Keeping.{IsLawfulEpoch};

/// Whatever happens in a life, each event where it may, that begins with log files which hold a past or are new, and
/// whatever string a crash then leaves on each disk, of those that it may leave: the strings are log files that hold
/// the history, past and new; the least of their last marks, the durable epoch, is no less than the board's D; the
/// entries up to it are a beginning of the history, which is in replay and stamped; each file has just its logger's
/// share of them; and each entry whose reply was released, in this life or before, is among them (Silo, section 4.10).
/// Nothing is assumed of how the steps of threads interleave, nor of which device calls fail.
pub fn every_life_recovers()
    ensures { (t0 : Database) (life : Life) (old : ℕ → List BodyView) (past earlier : List CommittedEntry)
        (files : ℕ → LogFileView DiskView) (events : List Event) (strings : ℕ → List ℕ)
        → IsBase t0 life old past earlier
        → ((l : ℕ) → l < life.plan.loggers → IsOpened (header_of life l) (old l) (files l))
        → MayHappenInTurn life (opening life.plan files) events
        → Crashes life (world_after_all (opening life.plan files) events) strings
        → Recovers t0 life (past ++ (world_after_all (opening life.plan files) events).history)
        ((world_after_all (opening life.plan files) events).released ++ earlier)
        (world_after_all (opening life.plan files) events).durable strings }
{}

/// The same of a first life, which begins with log files that were just made: it is the case of no past.
pub fn crash_of_a_first_life_recovers()
    ensures { (life : Life) (files : ℕ → LogFileView DiskView) (events : List Event) (strings : ℕ → List ℕ)
        → IsFirst life files → MayHappenInTurn life (opening life.plan files) events
        → Crashes life (world_after_all (opening life.plan files) events) strings
        → Recovers life.first life (world_after_all (opening life.plan files) events).history
        (world_after_all (opening life.plan files) events).released
        (world_after_all (opening life.plan files) events).durable strings }
{
    every_life_recovers();
}

/// In every world that a life reaches D is lawful: whatever a crash then leaves on a logger's disk has each entry of
/// the logger's stream, past and new, with an epoch up to D.
pub fn durable_epoch_is_lawful()
    ensures { (t0 : Database) (life : Life) (old : ℕ → List BodyView) (past earlier : List CommittedEntry)
        (files : ℕ → LogFileView DiskView) (events : List Event)
        → IsBase t0 life old past earlier
        → ((l : ℕ) → l < life.plan.loggers → IsOpened (header_of life l) (old l) (files l))
        → MayHappenInTurn life (opening life.plan files) events
        → IsLawfulEpoch life past (world_after_all (opening life.plan files) events)
        (world_after_all (opening life.plan files) events).durable }
{}
