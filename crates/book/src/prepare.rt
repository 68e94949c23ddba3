//! What may be refused of a commit, all of which comes before its first store.
ghost use Rattle.std.specs.Prelude.{◌≡◌, ◌+◌, ◌<◌, length, vec_len, vec_capacity, IfOk, IfErr, OnOk};
ghost use Rattle.std.specs.Arc.{arc_value};
ghost use Rattle.money.specs.declared.refusal.Refusal.TheVariants.{OutOfMemory};
ghost use Rattle.tidword.specs.TidWord.{tid_of};
ghost use Rattle.tidword.specs.Lawful.{next};
ghost use Rattle.book.specs.Committing.{IsHindered};
ghost use Rattle.book.specs.Storing.{IsPrepared};
ghost use Rattle.book.specs.Streams.{IsSameUntaken};

use crate::done::Done;
use crate::entry::Entry;
use crate::shared::shared;
use crate::untaken::Untaken;
use money::Refusal;
use readset::WriteSet;
use std::alloc::Global;
use std::sync::Arc;
use tables::{Input, Reply};
use tidword::{TidWord, next_tid};

/// What a commit's place in the history comes from: the commit cap, how many commits the run began with, the epoch, the
/// greatest TID that it has seen, and the terminal with the TID of its last commit.
#[derive(Clone, Copy)]
pub(crate) struct Place {
    pub cap: u32,
    pub past: u32,
    pub epoch: u32,
    pub seen: TidWord,
    pub terminal: u16,
    pub last: TidWord,
}

/// The entry of a commit that isn't refused, which stands in memory once: for the history, for its stream, and for its
/// terminal.
pub(crate) struct Prepared {
    pub tid: TidWord,
    pub entry: Arc<Entry, Global>,
    pub waiting: Arc<Entry, Global>,
    pub done: Done,
}

/// Takes the TID in this epoch, and makes the entry, with memory for a place in the history and one in the stream.
///
/// # Errors
///
/// `CommitsFull` exactly at the commit cap, then `EpochFull` exactly where `next_tid` has no TID of the greatest one
/// seen and the terminal's last, then `OutOfMemory`. History and stream are then as before.
pub(crate) fn prepare(
    history: &mut Vec<Arc<Entry, Global>>,
    stream: &mut Untaken,
    place: Place,
    input: Input,
    reply: Reply,
    writes: WriteSet,
) -> Result<Prepared, Refusal>
    ensures prepared { IfOk result (IsPrepared place (length history.old.items) input reply writes) }
    ensures history { history.new.items ≡ history.old.items }
    ensures stream { IsSameUntaken stream.old stream.new }
    ensures room { OnOk result ((vec_len history.new < vec_capacity history.new)
        × (vec_len stream.new.waiting < vec_capacity stream.new.waiting)) }
    ensures refused { IfErr result (IsHindered (place.past + length history.old.items) place.cap
        (next (tid_of place.seen) (tid_of place.last) place.epoch)) }
{
    if place.past as usize + history.len() >= place.cap as usize {
        return Err(Refusal::CommitsFull);
    }
    let tid = next_tid(place.seen, place.last, place.epoch)?;
    let alloc = *history.allocator();
    history.reserve(1)?;
    stream.reserve()?;
    let number = place.past + history.len() as u32 + 1;
    entered(alloc, number, tid, place.terminal, input, reply, writes)
}

/// The entry of this number, TID and terminal, once for all who have it. `OutOfMemory` is the only refusal.
fn entered(
    alloc: Global,
    number: u32,
    tid: TidWord,
    terminal: u16,
    input: Input,
    reply: Reply,
    writes: WriteSet,
) -> Result<Prepared, Refusal>
    ensures tid { IfOk result (λ made. made.tid ≡ tid) }
    ensures entry { IfOk result (λ made. arc_value made.entry ≡ record {
      number = number;
      tid = tid;
      terminal = terminal;
      input = input;
      reply = reply;
      writes = writes;
    }) }
    ensures waiting { IfOk result (λ made. arc_value made.waiting ≡ arc_value made.entry) }
    ensures done { IfOk result (λ made. made.done ≡ record { number = number; tid = tid; reply = reply }) }
    ensures only_memory { IfErr result (λ refusal. refusal ≡ OutOfMemory) }
{
    let writes = writes.into_list()?;
    let entry = Entry {
        number,
        tid,
        terminal,
        input,
        reply,
        writes,
    };
    let (entry, waiting) = shared(alloc, entry)?;
    let told = Arc::try_clone(&entry)?;
    Ok(Prepared {
        tid,
        entry,
        waiting,
        done: Done::of(told),
    })
}
