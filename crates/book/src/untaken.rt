//! What a logger is to take.
ghost use Rattle.std.specs.Prelude.{◌≡◌, ◌<◌, ◌≤◌, ◌+◌, ◌^◌, [], ◌∷◌, ◌++◌, map, length, vec_len, vec_capacity};
ghost use Rattle.std.specs.Prelude.{OnOk};
ghost use Rattle.std.specs.Arc.{arc_value};
ghost use Rattle.book.specs.Streams.{last_number, IsSameUntaken};

use crate::entry::Entry;
use std::alloc::{AllocError, Global};
use std::mem;
use std::sync::Arc;

/// The rest of a logger's stream, which it has not taken yet, and where that stands.
#[derive(Drop)]
pub(crate) struct Untaken {
    /// How many entries of the stream were taken.
    pub taken: u64,
    /// The commit number of the last of these, and 0 where there is none.
    pub last_taken: u32,
    /// The entries behind these.
    pub waiting: Vec<Arc<Entry, Global>>,
    /// The mark of the last take: each waiting entry is of a later epoch.
    pub mark: u64,
}

impl Untaken {
    /// A stream without entries. Takes no memory.
    pub(crate) fn new(alloc: Global, mark: u64) -> Untaken
        ensures empty { (result.taken ≡ 0) × (result.last_taken ≡ 0) × (result.waiting.items ≡ []) }
        ensures mark { result.mark ≡ mark }
    {
        Untaken {
            taken: 0,
            last_taken: 0,
            waiting: Vec::new(alloc),
            mark,
        }
    }

    /// Room for one entry more.
    pub(crate) fn reserve(&mut self) -> Result<(), AllocError>
        ensures same { IsSameUntaken self.old self.new }
        ensures room { OnOk result (vec_len self.new.waiting < vec_capacity self.new.waiting) }
    {
        self.waiting.reserve(1)?;
        Ok(())
    }

    /// One entry more, for which there is room.
    pub(crate) fn add(&mut self, entry: Arc<Entry, Global>)
        requires { vec_len self.old.waiting < vec_capacity self.old.waiting }
        ensures same { (self.new.taken ≡ self.old.taken) × (self.new.last_taken ≡ self.old.last_taken)
            × (self.new.mark ≡ self.old.mark) }
        ensures waiting { self.new.waiting.items ≡ self.old.waiting.items ++ entry ∷ [] }
    {
        self.waiting.push_reserved(entry);
    }

    /// Takes the entries that wait, at this mark. Takes no memory.
    pub(crate) fn take(&mut self, mark: u64) -> Vec<Arc<Entry, Global>>
        requires { self.old.taken + length self.old.waiting.items < 2 ^ 64 }
        ensures entries { result.items ≡ self.old.waiting.items }
        ensures waiting { self.new.waiting.items ≡ [] }
        ensures taken { self.new.taken ≡ self.old.taken + length self.old.waiting.items }
        ensures last_taken { self.new.last_taken
            ≡ last_number self.old.last_taken (map arc_value self.old.waiting.items) }
        ensures mark { self.new.mark ≡ mark }
    {
        let alloc = *self.waiting.allocator();
        let entries = mem::replace(&mut self.waiting, Vec::new(alloc));
        self.taken += entries.len() as u64;
        self.last_taken = last_number(self.last_taken, &entries);
        self.mark = mark;
        entries
    }
}

/// The commit number of the last of these entries, and this one where there are none.
fn last_number(before: u32, entries: &[Arc<Entry, Global>]) -> u32
    ensures { result ≡ last_number before (map arc_value entries.now) }
{
    match entries.last() {
        Some(entry) => entry.number,
        None => before,
    }
}
