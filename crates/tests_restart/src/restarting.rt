//! Restarts, of which only numbers are kept.

use log_disk::{Disk, Memory};
use money::Refusal;
use recover_restart::{restart, restart_or_give_back};
use std::alloc::{AllocError, Global};
use std::sync::Wait;
use tests_log_files::{small, unwatched};

/// What a restart gives, and how long the two files are then.
#[derive(Clone, Copy, Debug, PartialEq, Eq)]
pub(crate) struct Restart {
    pub(crate) commits: u64,
    pub(crate) epoch: u64,
    pub(crate) lengths: (usize, usize),
}

/// What a restart behind epoch 8 gives.
pub(crate) const BEHIND_8: Restart = Restart {
    commits: 2,
    epoch: 9,
    lengths: (255, 723),
};

/// The disks, lent.
pub(crate) fn lent(alloc: Global, disks: &mut [Memory]) -> Result<Vec<&mut Memory>, AllocError> {
    let mut all = Vec::new(alloc);
    for disk in disks.iter_mut() {
        all.push(disk)?;
    }
    Ok(all)
}

/// Restarts on these disks, with one terminal, and gives up what goes on: its number of commits and its epoch.
pub(crate) fn numbers_of<R: Wait, D: Disk + Drop>(
    rt: &R,
    alloc: Global,
    disks: Vec<D>,
) -> Result<(u64, u64), Refusal> {
    if disks.is_empty() || disks.len() > 8 {
        return Err(Refusal::BadInput);
    }
    let population = small(alloc)?;
    let restarted = restart(rt, alloc, population, disks, 1, &unwatched(alloc))?;
    Ok((restarted.commits, restarted.epoch))
}

/// Restarts on the disks that a restart which is refused gives back.
pub(crate) fn numbers_behind_a_refusal<R: Wait, D: Disk + Drop>(
    rt: &R,
    alloc: Global,
    disks: Vec<D>,
) -> Result<(u64, u64), Refusal> {
    if disks.is_empty() || disks.len() > 8 {
        return Err(Refusal::BadInput);
    }
    let population = small(alloc)?;
    match restart_or_give_back(rt, alloc, population, disks, 1, &unwatched(alloc)) {
        Ok(_) => Err(Refusal::BadInput),
        Err(refused) => numbers_of(rt, alloc, refused.disks),
    }
}

/// Restarts on disks in memory.
pub(crate) fn restart_on<R: Wait>(
    rt: &R,
    alloc: Global,
    disks: &mut [Memory],
) -> Result<Restart, Refusal> {
    let lent = lent(alloc, disks)?;
    let (commits, epoch) = numbers_of(rt, alloc, lent)?;
    let length = |n: usize| disks.get(n).map_or(0, |disk| disk.bytes().len());
    Ok(Restart {
        commits,
        epoch,
        lengths: (length(0), length(1)),
    })
}
