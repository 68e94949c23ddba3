//! That a restart is what may happen over the lives of a database, and takes what any crash among them leaves.
ghost use Rattle.std.specs.Prelude.{◌≡◌, ◌<◌, ℕ, List, [], length, map, slice_index_or};
ghost use Rattle.money.specs.declared.refusal.Refusal.{Refusal};
ghost use Rattle.tables.specs.Database.{Database};
ghost use Rattle.tables.specs.Reach.{IsInReach};
ghost use Rattle.book.specs.Parts.{first_of};
ghost use Rattle.book.specs.declared.entry.Entry.{Entry};
ghost use Rattle.book.specs.declared.parts.Parts.{Parts};
ghost use Rattle.log_header.specs.declared.header.TheConstants.{VERSION};
ghost use Rattle.logfile.specs.Standing.{LogFileView};
ghost use Rattle.recover_crashes.specs.Recovering.{counts_in, cut};
ghost use Rattle.recover_crashes.specs.World.{Life, DiskView, IsFirst};
ghost use Rattle.recover_laws.specs.Found.{listed};
ghost use Rattle.recover_laws.specs.Recovered.{IsFirstDatabase};
ghost use Rattle.recover_lives.specs.World.{Down, origin_of, first_world};
ghost use Rattle.recover_lives.specs.Events.{LivesEvent, MayOccurInTurn, MayStrike, lives_after_all};
ghost use Rattle.recover_opening.specs.Opening.{disk_on};
ghost use Rattle.recover_restart.specs.Restarting.{IsRestart, IsRefusedRestart, AreTakenUp};
ghost use Rattle.recover_restart.specs.Lives.{GiveWhatMayBeLeft, MayLead, life_behind, origin_behind, world_behind};

use log_disk::Disk;
use recover_lives::every_crash_is_survived;
use recover_sound::{recovered_commits_are_within_the_cap, replays_are_reached};

/// A restart is a list of events over the lives of a database (`recover_lives`), each of which may happen where it does
/// (`MayLead`), from disks without a process. What `restart` gives (`IsRestart`) leads to the life that it goes on with,
/// of its tables and number of commits, on its files: behind what counts there of all that has committed, and with all
/// that was released. What a refused one gives back of modelled disks (`IsRefusedRestart`), of which a read gave what a
/// crash may leave, leads to those disks with no process again: all that has committed and was released stays, while D
/// may be one that it has read. Here `disk` and `file` stand for those past the end of a list. The function does nothing:
/// its contract is the law.
pub fn restart_goes_on<D: Disk>()
    ensures goes_on { (t0 : Database) (seed terminals : ℕ) (disks : List DiskView) (parts : Parts)
        (files : List (LogFileView DiskView)) (commits epoch known : ℕ) (history released : List Entry)
        (disk : DiskView) (file : LogFileView DiskView)
        → (r : IsRestart t0 seed terminals disks parts files commits epoch) → 0 < length disks
        → MayLead (origin_behind t0 seed (length disks))
        (Down (λ l. slice_index_or disks l disk) known history released)
        (world_behind (life_behind (first_of parts) commits seed (length disks) r.top)
        (cut (counts_in (length disks) (λ l. slice_index_or r.bodies l []) r.durable) history) released
        (λ l. slice_index_or files l file)) }
    ensures refused { D.is_modelled → (t0 : Database) (seed terminals : ℕ) (old new : List D) (known : ℕ)
        (history released : List Entry) (disk : DiskView) (refusal : Refusal)
        → IsRefusedRestart D.is_modelled D.seen D.story D.failed t0 seed terminals refusal old new
        → GiveWhatMayBeLeft (map (disk_on D.seen D.story) old)
        → (durable : ℕ) × MayLead (origin_behind t0 seed (length old))
        (Down (λ l. slice_index_or (map (disk_on D.seen D.story) old) l disk) known history released)
        (Down (λ l. slice_index_or (map (disk_on D.seen D.story) new) l disk) durable history released) }
{}

/// Whatever happens over the lives of a database, any number of crashes and restarts and whatever happens within each
/// life, and whatever string a crash then leaves on each disk: a restart on them refuses them neither by `Damaged` nor
/// by `Gap` (`AreTakenUp`, of the clauses of `restart`). They are log files, no commit that counts is missing, and
/// tables that are rebuilt of them are such as so many commits can have made, since they are the replay of what counts.
/// The database began with tables that no commit had moved, as those of a population are (`IsInReach 0`), and its log
/// files are of the version that is written today, since a restart goes on in no other. The function does nothing: its
/// contract is the law.
pub fn restart_takes_what_a_crash_leaves()
    ensures { (life : Life) (files : ℕ → LogFileView DiskView)
        (events : List LivesEvent) (strings : ℕ → List ℕ)
        → IsFirstDatabase life.first → IsInReach 0 life.first → life.version ≡ VERSION → IsFirst life files
        → MayOccurInTurn (origin_of life) (first_world life files) events
        → MayStrike (origin_of life) (lives_after_all (origin_of life) (first_world life files) events) strings
        → AreTakenUp life.first life.seed (listed life.plan.loggers strings) }
{
    every_crash_is_survived();
    recovered_commits_are_within_the_cap();
    replays_are_reached();
}
