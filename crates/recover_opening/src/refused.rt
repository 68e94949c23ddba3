//! A refusal that loses no disk.
ghost use Rattle.std.specs.Prelude.{◌≡◌, ◌≤◌, ◌+◌, [], ◌∷◌, ◌++◌, length, map, vec_capacity};
ghost use Rattle.std.specs.Vec.Iter.{into_iter_items};

use log_disk::Disk;
use logfile::LogFile;
use money::Refusal;
use std::vec::IntoIter;

/// Why log files aren't opened, and the disks, which are given back in their order.
#[derive(Drop)]
pub struct AllRefused<D: Disk> {
    pub refusal: Refusal,
    pub disks: Vec<D>,
}

/// The disks of files, in their order, in a vector that has room for them.
pub fn disks_of<D: Disk + Drop>(room: Vec<D>, files: Vec<LogFile<D>>) -> Vec<D>
    requires none { room.items ≡ [] }
    requires room { length files.items ≤ vec_capacity room }
    ensures disks { result.items ≡ map (λ file. file.disk) files.items }
    ensures room { vec_capacity result ≡ vec_capacity room }
{
    let mut disks = room;
    for file in files {
        disks.push_reserved(file.into_disk());
    }
    disks
}

/// The disks of files, then a disk, then others, in a vector that has room for them.
pub(crate) fn put_back<D: Disk + Drop>(
    room: Vec<D>,
    files: Vec<LogFile<D>>,
    disk: D,
    rest: IntoIter<D>,
) -> Vec<D>
    requires none { room.items ≡ [] }
    requires room { length files.items + 1 + length (into_iter_items rest) ≤ vec_capacity room }
    ensures disks { result.items ≡ map (λ file. file.disk) files.items ++ disk ∷ into_iter_items rest }
{
    let mut disks = disks_of(room, files);
    disks.push_reserved(disk);
    for disk in rest {
        disks.push_reserved(disk);
    }
    disks
}
