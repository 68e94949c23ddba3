//! What is kept of the commits that count in log files, and the order of their numbers.
ghost use Rattle.std.specs.Prelude.{◌≡◌, ◌↔◌, List, map, IsTrue};
ghost use Rattle.std.specs.List.Sorted.{IsPermutation, IsNonDecreasingBy};
ghost use Rattle.log_text.specs.Entries.{EntryView};
ghost use Rattle.recover_found.specs.Rebuilt.{AreNumbered};
ghost use Rattle.recover_files.specs.Parts.{commit_of};

use tables::History;

/// What is kept of an entry of a log file once its writes were looked at.
#[derive(Clone, Copy, Debug, PartialEq, Eq)]
pub struct Commit {
    /// The commit number, from 1.
    pub number: u64,
    /// The row that it adds to HISTORY, if it adds one.
    pub row: Option<History>,
}

/// Puts commits into the order of their numbers.
pub fn sort(commits: &mut Vec<Commit>)
    ensures permutation { IsPermutation commits.old.items commits.new.items }
    ensures sorted { IsNonDecreasingBy (λ commit. commit.number) commits.new.items }
{
    commits.sort_unstable_by_key(|commit| commit.number);
}

/// Whether these are the commits 1, 2, 3 and so on, in this order. One pass.
pub fn are_numbered(commits: &[Commit]) -> bool
    ensures { (es : List EntryView) → commits.now ≡ map commit_of es → IsTrue result ↔ AreNumbered 1 es }
{
    let mut next = 1;
    for commit in commits {
        if commit.number != next {
            return false;
        }
        next += 1;
    }
    true
}
