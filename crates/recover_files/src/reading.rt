//! Reading log files in threads.
ghost use Rattle.std.specs.Prelude.{◌≡◌, ◌≢◌, ◌↔◌, ◌⊎◌, ◌++◌, ◌+◌, ◌≤◌, Ok, length};
ghost use Rattle.std.specs.Prelude.{IfOk, IfErr, IsErrOf};
ghost use Rattle.std.specs.Thread.{IsSync};
ghost use denote.Param.Send.{IsSend};
ghost use Rattle.money.specs.declared.refusal.Refusal.TheVariants.{OutOfMemory, Damaged, Device};
ghost use Rattle.population.specs.Initial.{initial, seed_of};
ghost use Rattle.recover_files.specs.Files.{headers_from, ReadsFiles};
ghost use Rattle.recover_files.specs.declared.file_set.FileSet.{FileSet as FileSetValue};

use crate::file_set::FileSet;
use crate::files::read_some;
use log_disk::Disk;
use money::Refusal;
use population::Population;
use recover_progress::Progress;
use std::alloc::Global;
use std::thread::{Threads, join_mut};

/// What `read_some` reads, in at most so many threads, of which the calling one is the first, and no more than there
/// are files: with 0 or 1 it is the only one. Where a thread can't be started, the calling one does its work. The stack
/// grows by the logarithm of the threads.
///
/// # Errors
///
/// As `read_some`, but that each thread looks at its own files until one refuses: where one thread finds a device that
/// fails, that decides, whatever another has found.
#[cycle(parts)]
pub(crate) fn read_with<R: Threads + Sync, D: Disk + Send>(
    rt: &R,
    alloc: Global,
    population: &Population,
    loggers: usize,
    first: usize,
    threads: usize,
    disks: &mut [D],
    progress: &Progress,
) -> Result<FileSet, Refusal>
    requires { first + length disks.old ≤ loggers }
    ensures { ReadsFiles D.is_modelled D.seen D.story D.failed
        (headers_from first loggers (initial population.now).scale (seed_of population.now)) disks.old disks.new
        result }
{
    if threads < 2 || disks.len() < 2 {
        return read_some(alloc, population, loggers, first, disks, progress);
    }
    let low = disks.len() / 2;
    let half = threads / 2;
    let (front, back) = disks.split_at_mut(low);
    let (a, b) = read_halves(
        rt,
        alloc,
        population,
        loggers,
        first,
        half,
        front,
        first + low,
        threads - half,
        back,
        progress,
    );
    both(a, b)
}

/// Two parts: the disks in front in a thread of their own and those that start from it, the others in this one.
#[cycle(parts)]
fn read_halves<R: Threads + Sync, D: Disk + Send>(
    rt: &R,
    alloc: Global,
    population: &Population,
    loggers: usize,
    first: usize,
    half: usize,
    front: &mut [D],
    up: usize,
    others: usize,
    back: &mut [D],
    progress: &Progress,
) -> (Result<FileSet, Refusal>, Result<FileSet, Refusal>)
    requires order { half ≤ others }
    requires front { first + length front.old ≤ loggers }
    requires back { up + length back.old ≤ loggers }
    ensures front { ReadsFiles D.is_modelled D.seen D.story D.failed
        (headers_from first loggers (initial population.now).scale (seed_of population.now)) front.old front.new
        result.0 }
    ensures back { ReadsFiles D.is_modelled D.seen D.story D.failed
        (headers_from up loggers (initial population.now).scale (seed_of population.now)) back.old back.new result.1 }
{
    let mut left = || -> Result<FileSet, Refusal>
        requires { IsSync R.row × IsSend D.row × (first + length front.now ≤ loggers) }
        ensures { ReadsFiles D.is_modelled D.seen D.story D.failed
            (headers_from first loggers (initial population.entry.now).scale (seed_of population.entry.now))
            front.entry.now front.exit.now result }
    { read_with(rt, alloc, population, loggers, first, half, front, progress) };
    let mut right = || -> Result<FileSet, Refusal>
        requires { IsSync R.row × IsSend D.row × (up + length back.now ≤ loggers) }
        ensures { ReadsFiles D.is_modelled D.seen D.story D.failed
            (headers_from up loggers (initial population.entry.now).scale (seed_of population.entry.now))
            back.entry.now back.exit.now result }
    { read_with(rt, alloc, population, loggers, up, others, back, progress) };
    join_mut(rt, &mut left, &mut right)
}

/// The files of two parts, those of the second behind the first's. Where one of them was refused, so is the whole: by
/// `Device` if either was, so that what is damaged on one disk doesn't hide that another has failed. Where they are of
/// two versions, they are `Damaged`.
fn both(a: Result<FileSet, Refusal>, b: Result<FileSet, Refusal>) -> Result<FileSet, Refusal>
    ensures files { IfOk result (λ files. (x y : FileSetValue) × (a ≡ Ok x) × (b ≡ Ok y)
        × (files.bodies.items ≡ x.bodies.items ++ y.bodies.items)
        × (x.version ≡ files.version) × (y.version ≡ files.version)) }
    ensures device { IsErrOf result Device ↔ (IsErrOf a Device ⊎ IsErrOf b Device) }
    ensures damaged { IsErrOf result Damaged → IsErrOf a Damaged ⊎ IsErrOf b Damaged
        ⊎ ((x y : FileSetValue) × (a ≡ Ok x) × (b ≡ Ok y) × (x.version ≢ y.version)) }
    ensures others { IfErr result (λ refusal. (refusal ≢ OutOfMemory)
        → IsErrOf a refusal ⊎ IsErrOf b refusal ⊎ (refusal ≡ Damaged)) }
{
    match (a, b) {
        (Ok(front), Ok(back)) => front.joined(back),
        (Err(Refusal::Device), _) | (_, Err(Refusal::Device)) => Err(Refusal::Device),
        (Err(refusal), _) | (_, Err(refusal)) => Err(refusal),
    }
}
