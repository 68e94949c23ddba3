//! The first commit number that is amiss.
ghost use Rattle.std.specs.Prelude.{◌≡◌, ◌≢◌, ◌≤◌, ℕ, List, map, IfOk, IfErr, MatchOption};
ghost use Rattle.std.specs.List.{All};
ghost use Rattle.std.specs.List.Sorted.{IsNonDecreasingBy};
ghost use Rattle.money.specs.declared.refusal.Refusal.TheVariants.{OutOfMemory, Device, Damaged};
ghost use Rattle.log_disk.specs.Calls.{OnlyReads};
ghost use Rattle.log_text.specs.Entries.{EntryView};
ghost use Rattle.population.specs.Initial.{initial, seed_of};
ghost use Rattle.recover_found.specs.Rebuilt.{AreNumbered};
ghost use Rattle.recover_files.specs.Parts.{commit_of};
ghost use Rattle.program_recovery.specs.Flaws.{IsFirstGap, IsMisnumbered};

use log_disk::Disk;
use money::Refusal;
use population::Population;
use recover::{Commit, commits_found};
use recover_progress::Progress;
use std::alloc::Global;
use std::fmt::{self, Display};

/// Of the numbers 1, 2, 3 and so on, the first that isn't the number of just one commit.
#[derive(Clone, Copy, Debug, PartialEq, Eq)]
pub enum Misnumbered {
    /// It is the number of none, and a later commit is there.
    Missing { number: u64 },
    /// It is the number of two.
    Twice { number: u64 },
}

impl Display for Misnumbered {
    ghost use Rattle.std.specs.Prelude.{Some};
    ghost use Rattle.program_recovery.specs.Flaws.{misnumbered_text};

    ghost output = { λ gap. Some (misnumbered_text gap) };

    fn fmt<W: fmt::Write>(&self, f: &mut fmt::Formatter<W>) -> fmt::Result {
        match *self {
            Misnumbered::Missing { number } => write!(f, "commit {number} is missing"),
            Misnumbered::Twice { number } => write!(f, "commit {number} stands twice"),
        }
    }
}

/// What `recover` refuses by `Gap`: the first number that is amiss of the commits up to the durable epoch that log
/// files have; None where there is none such. It reads the disks once more, and writes nothing.
///
/// # Errors
///
/// As `recover`, but for `Gap`.
pub fn first_gap<D: Disk>(
    alloc: Global,
    population: &Population,
    disks: &mut [D],
) -> Result<Option<Misnumbered>, Refusal>
    ensures gap { IfOk result (λ gap. (strings : List (List ℕ)) × (D.is_modelled → strings ≡ map D.seen disks.old)
        × IsFirstGap (initial population.now).scale (seed_of population.now) strings gap) }
    ensures cause { IfErr result (λ refusal. (refusal ≢ OutOfMemory) → (refusal ≢ Device) → refusal ≡ Damaged) }
    ensures reads { OnlyReads D.is_modelled (map D.seen) (map D.story) disks.old disks.new }
{
    let unshown = Progress::of(Vec::new(alloc));
    let commits = commits_found(alloc, population, disks, &unshown)?;
    Ok(first_amiss(&commits))
}

/// The first number that is amiss of commits that stand in the order of their numbers.
fn first_amiss(commits: &[Commit]) -> Option<Misnumbered>
    requires sorted { IsNonDecreasingBy (λ commit. commit.number) commits.now }
    requires positive { All (λ commit. 1 ≤ commit.number) commits.now }
    ensures { (es : List EntryView) → commits.now ≡ map commit_of es
        → MatchOption result (AreNumbered 1 es) (IsMisnumbered es) }
{
    let mut next = 1;
    for commit in commits {
        if commit.number > next {
            return Some(Misnumbered::Missing { number: next });
        }
        if commit.number < next {
            return Some(Misnumbered::Twice {
                number: commit.number,
            });
        }
        next += 1;
    }
    None
}
