//! A disk one of whose calls fails.
ghost use Rattle.std.specs.Prelude.{◌≡◌, ◌+◌, ◌^◌, ◌<◌, [], false, true, length, IsOk, OnOk};
ghost use Rattle.log_disk.specs.Calls.{Counts};

use log_disk::{Disk, Memory};
use money::Refusal;
use std::sync::atomic::{AtomicU64, Ordering};

/// The write or sync of a disk that fails: the one behind so many others, which are done.
#[derive(Clone, Copy, Debug, PartialEq, Eq)]
pub struct Fault {
    /// How many.
    pub behind: u64,
    /// How many bytes it writes all the same, if it is a write, and of as many.
    pub bytes: usize,
}

/// How many of some disks were never synced.
#[derive(Drop)]
pub struct Unsynced {
    disks: AtomicU64,
}

impl Unsynced {
    /// So many.
    pub fn of(disks: usize) -> Unsynced {
        Unsynced {
            disks: AtomicU64::new(disks as u64),
        }
    }

    fn count(&self) -> u64 {
        self.disks.load(Ordering::SeqCst)
    }

    /// One of them was synced.
    fn note_sync(&self) {
        self.disks.fetch_sub(1, Ordering::SeqCst);
    }
}

/// A disk over one in memory, whose bytes no contract speaks of: one of its writes and syncs fails, if one is to.
#[derive(Drop)]
pub struct FailingDisk<'a> {
    memory: &'a mut Memory,
    fault: Option<Fault>,
    // Whether it may be read, where others needn't be synced for that.
    is_open: bool,
    // Those that are to be synced too.
    unsynced: Option<&'a Unsynced>,
    failures: u64,
}

impl<'a> FailingDisk<'a> {
    /// A disk none of whose calls has failed.
    pub fn new(memory: &'a mut Memory, fault: Option<Fault>) -> FailingDisk<'a>
        ensures { (result.is_open ≡ true) × (result.failures ≡ 0) }
    {
        FailingDisk::of(memory, fault, true)
    }

    /// The same, of which also each look at its length or its bytes fails until it was synced.
    pub fn strict(memory: &'a mut Memory, fault: Option<Fault>) -> FailingDisk<'a>
        ensures { (result.is_open ≡ false) × (result.failures ≡ 0) }
    {
        FailingDisk::of(memory, fault, false)
    }

    /// One of some disks, of which each look fails until all were synced.
    pub fn gathered(memory: &'a mut Memory, unsynced: &'a Unsynced) -> FailingDisk<'a>
        ensures { (result.is_open ≡ false) × (result.failures ≡ 0) }
    {
        FailingDisk {
            unsynced: Some(unsynced),
            ..FailingDisk::of(memory, None, false)
        }
    }

    fn of(memory: &'a mut Memory, fault: Option<Fault>, is_open: bool) -> FailingDisk<'a>
        ensures { (result.is_open ≡ is_open) × (result.failures ≡ 0) }
    {
        FailingDisk {
            memory,
            fault,
            is_open,
            unsynced: None,
            failures: 0,
        }
    }
}

impl FailingDisk<'_> {
    /// How many bytes this call writes all the same, where it is the one that fails.
    fn due(&mut self) -> Option<usize>
        ensures { self.new.failures ≡ self.old.failures }
    {
        let fault = self.fault?;
        let next = fault.behind.checked_sub(1);
        self.fault = next.map(|behind| Fault { behind, ..fault });
        match next {
            Some(_) => None,
            None => Some(fault.bytes),
        }
    }

    fn write(&mut self, at: u64, bytes: &[u8]) -> Result<(), Refusal>
        ensures fits { OnOk result (at + length bytes.now < 2 ^ 63) }
        ensures failures { self.new.failures ≡ self.old.failures }
    {
        let due = self.due();
        if self.memory.len()? < at {
            return Err(Refusal::Device);
        }
        let Some(most) = due else {
            return self.memory.write_at(at, bytes);
        };
        let done = most.min(bytes.len());
        if done > 0 {
            self.memory.write_at(at, &bytes[..done])?;
        }
        Err(Refusal::Device)
    }

    fn keep(&mut self) -> Result<(), Refusal>
        ensures { self.new.failures ≡ self.old.failures }
    {
        if self.due().is_some() {
            return Err(Refusal::Device);
        }
        match self.unsynced {
            Some(unsynced) if !self.is_open => unsynced.note_sync(),
            _ => {}
        }
        self.is_open = true;
        self.memory.sync()
    }

    /// Refuses where it can't be read yet.
    fn looked_at(&self) -> Result<(), Refusal> {
        let waits = matches!(self.unsynced, Some(unsynced) if unsynced.count() > 0);
        if !self.is_open || waits {
            return Err(Refusal::Device);
        }
        Ok(())
    }

    fn size(&mut self) -> Result<u64, Refusal>
        ensures { self.new.failures ≡ self.old.failures }
    {
        self.looked_at()?;
        self.memory.len()
    }

    fn fill(&mut self, at: u64, into: &mut [u8]) -> Result<(), Refusal>
        ensures size { length into.new ≡ length into.old }
        ensures failures { self.new.failures ≡ self.old.failures }
    {
        self.looked_at()?;
        self.memory.read_at(at, into)
    }

    /// This answer, as one of a disk that counts its failures.
    fn counted<T: Drop>(&mut self, answer: Result<T, Refusal>) -> Result<T, Refusal>
        ensures ok { IsOk result → IsOk answer }
        ensures cause { Counts result self.old.failures self.new.failures }
    {
        match answer {
            Ok(value) if self.failures < u64::MAX => Ok(value),
            _ => {
                self.failures = self.failures.saturating_add(1);
                Err(Refusal::Device)
            }
        }
    }
}

impl Disk for FailingDisk<'_> {
    ghost is_modelled = { ⊥ };

    ghost seen = { λ disk. [] };

    ghost story = { λ disk. [] };

    ghost failed = { λ disk. disk.failures };

    ghost read_gives = { λ disk never. absurd never };

    fn len(&mut self) -> Result<u64, Refusal> {
        let answer = self.size();
        self.counted(answer)
    }

    fn read_at(&mut self, at: u64, into: &mut [u8]) -> Result<(), Refusal> {
        let answer = self.fill(at, into);
        self.counted(answer)
    }

    fn write_at(&mut self, at: u64, bytes: &[u8]) -> Result<(), Refusal> {
        let answer = self.write(at, bytes);
        self.counted(answer)
    }

    fn sync(&mut self) -> Result<(), Refusal> {
        let answer = self.keep();
        self.counted(answer)
    }

    fn failures(&self) -> u64 {
        self.failures
    }
}
