//! The commits that count in log files.
ghost use Rattle.std.specs.Prelude.{◌≡◌, ◌≢◌, ℕ, List, map, IfOk, IfErr};
ghost use Rattle.std.specs.List.Sorted.{IsNonDecreasingBy, IsPermutation};
ghost use Rattle.money.specs.declared.refusal.Refusal.TheVariants.{OutOfMemory, Damaged, Device};
ghost use Rattle.log_disk.specs.Calls.{OnlyReads};
ghost use Rattle.log_text.specs.Bodies.{BodyView};
ghost use Rattle.log_text.specs.Entries.{EntryView};
ghost use Rattle.population.specs.Initial.{initial, seed_of};
ghost use Rattle.recover_found.specs.Found.{found};
ghost use Rattle.recover_files.specs.Files.{AreFilesOf};
ghost use Rattle.recover_files.specs.Parts.{commit_of};

use crate::files::read_some;
use crate::numbering::{Commit, sort};
use crate::recovering::merged;
use log_disk::Disk;
use money::Refusal;
use population::Population;
use recover_found::Keeps;
use recover_progress::Progress;
use std::alloc::Global;

/// The commits up to the durable epoch that the log files of a population's database have, in the order of their
/// numbers. Reads the disks, and writes nothing. Notes how far it is, as `recover` does.
///
/// # Errors
///
/// As `recover`, but for `Gap`.
pub fn commits_found<D: Disk>(
    alloc: Global,
    population: &Population,
    disks: &mut [D],
    progress: &Progress,
) -> Result<Vec<Commit>, Refusal>
    ensures found { IfOk result (λ commits. (strings : List (List ℕ))
        × (D.is_modelled → strings ≡ map D.seen disks.old) × (version : ℕ) × (files : List (List BodyView))
        × AreFilesOf version (initial population.now).scale (seed_of population.now) strings files
        × (es : List EntryView)
        × IsPermutation (found files) es × (commits.items ≡ map commit_of es)) }
    ensures sorted { IfOk result (λ commits. IsNonDecreasingBy (λ commit. commit.number) commits.items) }
    ensures others { IfErr result (λ refusal. (refusal ≢ OutOfMemory) → (refusal ≢ Device) → refusal ≡ Damaged) }
    ensures reads { OnlyReads D.is_modelled (map D.seen) (map D.story) disks.old disks.new }
{
    let loggers = disks.len();
    let read = read_some(alloc, population, loggers, 0, disks, progress)?;
    let files = read.bodies;
    let keeps = Keeps::of(alloc, &files)?;
    let part = merged(alloc, &population.scale(), files, &keeps, progress)?;
    let mut commits = part.commits;
    sort(&mut commits);
    Ok(commits)
}
