//! A refusal that loses no disk.

use log_disk::Disk;
use money::Refusal;

/// Why a file isn't opened, and the disk, which is given back.
#[derive(Drop)]
pub struct Refused<D: Disk> {
    pub refusal: Refusal,
    pub disk: D,
}
