//! A disk whose calls get stamps.
ghost use Rattle.std.specs.Prelude.{◌≡◌};

use crate::notes::Notes;
use log_disk::Disk;
use money::Refusal;

/// Of a disk's calls, each so manieth is held, if it is a sync: of some batches the first sync, and of some the last.
const HELD: usize = 3;

/// A disk, of which each write and sync gets a stamp behind it. Some syncs are held, until terminals have asked for
/// their replies: a reply that they get by what isn't synced yet has an earlier stamp than the sync.
#[derive(Drop)]
pub struct Recorder<'a, D: Disk + Drop> {
    pub disk: D,
    pub notes: &'a Notes,
    /// The stamps of its writes and syncs, in order; none of one that failed.
    pub stamps: &'a mut Vec<u64>,
    /// How often they ask before a sync that is held.
    pub asks: u64,
}

impl<D: Disk + Drop> Recorder<'_, D> {
    /// Stamps a call, if it didn't fail. A stamp for which there is no room is missed at the end.
    fn note<T: Drop>(&mut self, answer: Result<T, Refusal>) -> Result<T, Refusal>
        ensures disk { self.new.disk ≡ self.old.disk }
        ensures answer { result ≡ answer }
    {
        match &answer {
            Ok(_) => {
                let stamp = self.notes.stamp();
                let _ = self.stamps.push(stamp);
            }
            Err(_) => self.notes.stop(),
        }
        answer
    }

    /// Terminals go first, where the next call is to be held.
    fn hold(&self) {
        if self.stamps.len() % HELD == 0 {
            self.notes.hold(self.asks);
        }
    }
}

impl<D: Disk + Drop> Disk for Recorder<'_, D> {
    ghost is_modelled = { D.is_modelled };

    ghost seen = { λ disk. D.seen disk.disk };

    ghost story = { λ disk. D.story disk.disk };

    ghost failed = { λ disk. D.failed disk.disk };

    ghost read_gives = { λ disk. D.read_gives disk.disk };

    fn len(&mut self) -> Result<u64, Refusal> {
        self.disk.len()
    }

    fn read_at(&mut self, at: u64, into: &mut [u8]) -> Result<(), Refusal> {
        self.disk.read_at(at, into)
    }

    fn write_at(&mut self, at: u64, bytes: &[u8]) -> Result<(), Refusal> {
        let answer = self.disk.write_at(at, bytes);
        self.note(answer)
    }

    fn sync(&mut self) -> Result<(), Refusal> {
        self.hold();
        let answer = self.disk.sync();
        self.note(answer)
    }

    fn failures(&self) -> u64 {
        self.disk.failures()
    }
}
