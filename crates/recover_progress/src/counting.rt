//! Counting what a recovery has read and looked at.
ghost use Rattle.std.specs.Prelude.{◌≡◌, ◌<◌, ◌^◌, sum_by};

use std::sync::atomic::{AtomicU64, Ordering};

/// How far a recovery is, as its threads tell it: each number is one that was so, and none need be of the same moment
/// as another. Nothing of a recovery goes by them. A note is one atomic addition.
#[derive(Drop)]
pub struct Progress {
    /// How many bytes each file has that is to be read, in the order of the loggers.
    sizes: Vec<u64>,
    read: AtomicU64,
    left: AtomicU64,
    entries: AtomicU64,
}

impl Progress {
    /// Of a recovery that begins, of log files of these sizes, in the order of their loggers. Where a file's size isn't
    /// known, it counts for nothing.
    pub fn of(sizes: Vec<u64>) -> Progress
        ensures { result.sizes ≡ sizes }
    {
        Progress {
            sizes,
            read: AtomicU64::new(0),
            left: AtomicU64::new(0),
            entries: AtomicU64::new(0),
        }
    }

    /// How many bytes the files have in all: the sum of the sizes, and 2^64 - 1 where that is more. One pass over them.
    pub fn in_all(&self) -> u64
        ensures { sum_by (λ size. size) self.now.sizes.items < 2 ^ 64
            → result ≡ sum_by (λ size. size) self.now.sizes.items }
    {
        let mut all: u64 = 0;
        for &size in &self.sizes {
            all = all.saturating_add(size);
        }
        all
    }

    /// How many bytes were read.
    pub fn read(&self) -> u64 {
        self.read.load(Ordering::SeqCst)
    }

    /// How many bytes are left aside, since they stand behind the text of their file.
    pub fn left(&self) -> u64 {
        self.left.load(Ordering::SeqCst)
    }

    /// How many bytes there are to read: those that the files have, but for what is left aside; never fewer than were
    /// read, also where a file's size isn't known.
    pub fn to_read(&self) -> u64 {
        let read = self.read();
        self.in_all().saturating_sub(self.left()).max(read)
    }

    /// How many entries were looked at.
    pub fn entries(&self) -> u64 {
        self.entries.load(Ordering::SeqCst)
    }

    /// So many more bytes were read.
    pub fn note_bytes(&self, bytes: usize) {
        self.read.fetch_add(bytes as u64, Ordering::SeqCst);
    }

    /// So many more bytes are left aside.
    pub fn note_left(&self, bytes: usize) {
        self.left.fetch_add(bytes as u64, Ordering::SeqCst);
    }

    /// So many more entries were looked at.
    pub fn note_entries(&self, entries: usize) {
        self.entries.fetch_add(entries as u64, Ordering::SeqCst);
    }
}
