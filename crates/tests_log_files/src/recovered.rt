//! What disks recover to.

use crate::files::{small, unwatched};
use log_disk::Disk;
use money::{Cents, Refusal};
use recover::recover;
use std::alloc::Global;

/// What recovery comes to.
#[derive(Clone, Copy, Debug, PartialEq, Eq)]
pub struct Recovery {
    pub durable: u64,
    pub commits: u64,
}

/// What is recovered of disks, and W_YTD of warehouse 1.
pub fn outcome_of<D: Disk>(
    alloc: Global,
    disks: &mut [D],
) -> Result<(Recovery, Option<Cents>), Refusal> {
    let population = small(alloc)?;
    let found = recover(alloc, &population, disks, &unwatched(alloc))?;
    let recovery = Recovery {
        durable: found.durable,
        commits: found.commits,
    };
    let warehouse = found.tables.warehouses.get(&1);
    Ok((recovery, warehouse.map(|row| row.year_to_date)))
}

/// What is recovered of disks.
pub fn recovery_of<D: Disk>(alloc: Global, disks: &mut [D]) -> Result<Recovery, Refusal> {
    let (recovery, _) = outcome_of(alloc, disks)?;
    Ok(recovery)
}
