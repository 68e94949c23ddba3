//! A disk whose syncs are timed.
ghost use Rattle.std.specs.Prelude.{◌≡◌};

use log_disk::Disk;
use money::Refusal;
use std::rt::Clock;
use std::time::Instant;

/// A disk, and how many nanoseconds its syncs have taken.
#[derive(Drop)]
pub(crate) struct Timed<'a, R: Clock, D: Disk + Drop> {
    rt: &'a R,
    disk: D,
    syncs: u128,
}

impl<'a, R: Clock, D: Disk + Drop> Timed<'a, R, D> {
    pub(crate) fn new(rt: &'a R, disk: D) -> Timed<'a, R, D>
        ensures { result.disk ≡ disk }
    {
        Timed { rt, disk, syncs: 0 }
    }

    pub(crate) fn syncs(&self) -> u128 {
        self.syncs
    }

    /// Adds the time since then.
    fn add(&mut self, start: Option<Instant>)
        ensures { self.new.disk ≡ self.old.disk }
    {
        let took = start.and_then(|start| start.elapsed(self.rt).ok());
        let nanos = took.map_or(0, |took| took.as_nanos());
        self.syncs = self.syncs.saturating_add(nanos);
    }
}

impl<R: Clock, D: Disk + Drop> Disk for Timed<'_, R, D> {
    ghost is_modelled = { D.is_modelled };

    ghost seen = { λ disk. D.seen disk.disk };

    ghost story = { λ disk. D.story disk.disk };

    ghost failed = { λ disk. D.failed disk.disk };

    ghost read_gives = { λ disk. D.read_gives disk.disk };

    fn len(&mut self) -> Result<u64, Refusal> {
        self.disk.len()
    }

    fn read_at(&mut self, at: u64, into: &mut [u8]) -> Result<(), Refusal> {
        self.disk.read_at(at, into)
    }

    fn write_at(&mut self, at: u64, bytes: &[u8]) -> Result<(), Refusal> {
        self.disk.write_at(at, bytes)
    }

    fn sync(&mut self) -> Result<(), Refusal> {
        let start = Instant::now(self.rt).ok();
        let answer = self.disk.sync();
        self.add(start);
        answer
    }

    fn failures(&self) -> u64 {
        self.disk.failures()
    }
}
