//! The disk of a log file of a run, whose failures are told at once.
ghost use Rattle.std.specs.Prelude.{◌≡◌, [], length, IfOk};

use log_disk::{Disk, FileDisk};
use money::Refusal;
use program_run::Alarm;
use std::alloc::{AllocError, Global};

/// A disk in a file, lent, which raises its alarm when a call of it fails.
#[derive(Drop)]
pub(crate) struct GuardedDisk<'d, 'a> {
    disk: &'d mut FileDisk,
    alarm: Option<&'a Alarm>,
}

/// Disks, lent, each with the alarm of its place, if it has one.
pub(crate) fn guarded<'d, 'a>(
    alloc: Global,
    disks: &'d mut [FileDisk],
    alarms: &'a [Alarm],
) -> Result<Vec<GuardedDisk<'d, 'a>>, AllocError>
    ensures { IfOk result (λ guarded. length guarded.items ≡ length disks.old) }
{
    let mut guarded = Vec::new(alloc);
    for disk in disks.iter_mut() {
        let alarm = alarms.get(guarded.len());
        guarded.push(GuardedDisk { disk, alarm })?;
    }
    Ok(guarded)
}

impl<'d, 'a> GuardedDisk<'d, 'a> {
    /// The answer of a call of the disk, which is heard where it is a refusal.
    fn heard<T>(&self, answer: Result<T, Refusal>) -> Result<T, Refusal>
        ensures { result ≡ answer }
    {
        if let (Err(_), Some(alarm)) = (&answer, self.alarm) {
            alarm.raise(self.disk.last_error());
        }
        answer
    }
}

impl<'d, 'a> Disk for GuardedDisk<'d, 'a> {
    ghost is_modelled = { ⊥ };

    ghost seen = { λ disk. [] };

    ghost story = { λ disk. [] };

    ghost failed = { λ disk. disk.disk.now };

    ghost read_gives = { λ disk never. absurd never };

    fn len(&mut self) -> Result<u64, Refusal> {
        let answer = self.disk.len();
        self.heard(answer)
    }

    fn read_at(&mut self, at: u64, into: &mut [u8]) -> Result<(), Refusal> {
        let answer = self.disk.read_at(at, into);
        self.heard(answer)
    }

    fn write_at(&mut self, at: u64, bytes: &[u8]) -> Result<(), Refusal> {
        let answer = self.disk.write_at(at, bytes);
        self.heard(answer)
    }

    fn sync(&mut self) -> Result<(), Refusal> {
        let answer = self.disk.sync();
        self.heard(answer)
    }

    fn failures(&self) -> u64 {
        self.disk.failures()
    }
}
