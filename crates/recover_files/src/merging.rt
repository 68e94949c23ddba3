//! Parts of log files, made in threads.
ghost use Rattle.std.specs.Prelude.{◌≡◌, ◌++◌, map, flat_map, IfOk};
ghost use Rattle.std.specs.List.{All};
ghost use Rattle.std.specs.Thread.{IsSync};
ghost use Rattle.tables.specs.Sizes.{Sizes, IsScale};
ghost use Rattle.recover_found.specs.Found.{bodies_in, counted, counts_by, entries_of};
ghost use Rattle.recover_files.specs.Parts.{IsPart, HaveLawfulWrites};

use crate::part::Part;
use crate::recovering::merged;
use log_text::Body;
use recover_found::Keeps;
use recover_progress::Progress;
use std::alloc::{AllocError, Global};
use std::thread::{Threads, join};
use tables::Scale;

/// What the files say together, from one part a file, made in at most so many threads, of which the calling one is the
/// first, and no more than there are files: with 0 or 1 it is the only one. Where a thread can't be started, the
/// calling one does its work. Constant time a write, and a pass over the records whenever two halves become one. The
/// stack grows by the logarithm of the threads.
#[cycle(merges)]
pub(crate) fn merged_with<R: Threads + Sync>(
    rt: &R,
    alloc: Global,
    scale: &Scale,
    files: Vec<Vec<Body>>,
    keeps: &Keeps,
    threads: usize,
    progress: &Progress,
) -> Result<Part, AllocError>
    requires scale { IsScale scale.now }
    requires lawful { All (λ bodies. HaveLawfulWrites scale.now (entries_of bodies))
        (map (λ bodies. bodies_in bodies.items) files.items) }
    ensures { IfOk result (λ part. IsPart scale.now
        (flat_map (counted (counts_by keeps.now)) (map (λ bodies. bodies_in bodies.items) files.items)) part) }
{
    if threads < 2 || files.len() < 2 {
        return merged(alloc, scale, files, keeps, progress);
    }
    let half = threads / 2;
    let others = threads - half;
    let (low, high) = halved(files)?;
    let front = move || -> Result<Part, AllocError>
        requires { IsSync R.row × IsScale scale.now × All (λ bodies. HaveLawfulWrites scale.now (entries_of bodies))
            (map (λ bodies. bodies_in bodies.items) low.items) }
        ensures { IfOk result (λ part. IsPart scale.entry.now
            (flat_map (counted (counts_by keeps.entry.now)) (map (λ bodies. bodies_in bodies.items) low.items)) part) }
    { merged_with(rt, alloc, scale, low, keeps, half, progress) };
    let back = move || -> Result<Part, AllocError>
        requires { IsSync R.row × IsScale scale.now × All (λ bodies. HaveLawfulWrites scale.now (entries_of bodies))
            (map (λ bodies. bodies_in bodies.items) high.items) }
        ensures { IfOk result (λ part. IsPart scale.entry.now
            (flat_map (counted (counts_by keeps.entry.now))
            (map (λ bodies. bodies_in bodies.items) high.items)) part) }
    { merged_with(rt, alloc, scale, high, keeps, others, progress) };
    let (a, b) = join(rt, front, back);
    let mut all = a?;
    all.merge(b?)?;
    Ok(all)
}

/// The files in front, and the others behind them: as many, or one more. Moves them, and takes memory for the others.
fn halved(files: Vec<Vec<Body>>) -> Result<(Vec<Vec<Body>>, Vec<Vec<Body>>), AllocError>
    ensures whole { IfOk result (λ x. files.items ≡ x.0.items ++ x.1.items) }
    ensures lawful { IfOk result (λ x. (s : Sizes) → All (λ bodies. HaveLawfulWrites s (entries_of bodies))
        (map (λ bodies. bodies_in bodies.items) files.items)
        → All (λ bodies. HaveLawfulWrites s (entries_of bodies)) (map (λ bodies. bodies_in bodies.items) x.0.items)
        × All (λ bodies. HaveLawfulWrites s (entries_of bodies)) (map (λ bodies. bodies_in bodies.items) x.1.items)) }
{
    let mut low = files;
    let high = low.split_off(low.len() / 2)?;
    Ok((low, high))
}
