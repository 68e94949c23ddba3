//! A transaction that is executed and committed while its terminal has the book: an attempt, and one after another.
ghost use Rattle.std.specs.Prelude.{◌≡◌, ◌+◌, ◌⊎◌, length, IfOk, IfErr, OnErr};
ghost use Rattle.money.specs.declared.refusal.Refusal.TheVariants.{OutOfMemory, Conflict, Stale};
ghost use Rattle.tables.specs.Inputs.{IsInput};
ghost use Rattle.book.specs.Book.{IsAsBefore};
ghost use Rattle.book.specs.History.{replay};
ghost use Rattle.book.specs.Next.{IsNextCommit, IsRefusedAt};

use book::{Book, Done, Engine, Run, Seat};
use money::Refusal;
use std::alloc::Global;
use std::sync::Wait;
use tables::Input;
use transactions::execute;

/// Executes a transaction and commits it, again and again for as long as what it read isn't the latest.
///
/// # Errors
///
/// As `Session::commit`. The history is then as it was.
pub(crate) fn persist<K: Run, R: Wait>(
    rt: &R,
    alloc: Global,
    engine: &Engine<K>,
    book: &mut Book<K>,
    seat: &mut Seat<K>,
    input: &Input,
) -> Result<Done, Refusal>
    requires input { IsInput K.run.first.scale input.now }
    ensures commits { IfOk result (IsNextCommit K.run.past K.run.first book.old.history book.new.history input.now) }
    ensures refusals { IfErr result (λ refusal. (refusal ≡ OutOfMemory)
        ⊎ IsRefusedAt (replay K.run.first book.old.history) (K.run.past + length book.old.history) input.now refusal) }
    ensures err { OnErr result (IsAsBefore book.old book.new) }
{
    for _ in rt.forever() {
        match attempt(rt, alloc, engine, book, seat, input) {
            Err(refusal) if refusal.is_retried() => {}
            outcome => return outcome,
        }
    }
    unreachable!()
}

/// Executes a transaction and commits it, if what it read is still the latest.
///
/// # Errors
///
/// At the committed tables: `ItemNotValid`, with the first such item, where an order's item isn't in ITEM; else
/// `OrdersFull` where D_NEXT_O_ID of its district is above the order cap; else `CommitsFull` at the commit cap. `Stale`
/// or `Conflict` where what it read wasn't or isn't the latest; `OutOfMemory`. The history is then as it was.
fn attempt<K: Run, R: Wait>(
    rt: &R,
    alloc: Global,
    engine: &Engine<K>,
    book: &mut Book<K>,
    seat: &mut Seat<K>,
    input: &Input,
) -> Result<Done, Refusal>
    requires input { IsInput K.run.first.scale input.now }
    ensures commits { IfOk result (IsNextCommit K.run.past K.run.first book.old.history book.new.history input.now) }
    ensures refusals { IfErr result (λ refusal. (refusal ≡ Stale) ⊎ (refusal ≡ Conflict) ⊎ (refusal ≡ OutOfMemory)
        ⊎ IsRefusedAt (replay K.run.first book.old.history) (K.run.past + length book.old.history) input.now refusal) }
    ensures err { OnErr result (IsAsBefore book.old book.new) }
{
    let (board, cells, population) = (engine.board(), engine.cells(), engine.population());
    match execute(rt, alloc, cells, &mut seat.reader, population, input) {
        Ok(work) => book.commit(rt, board, cells, &mut seat.reader, &mut seat.share, work),
        Err(refusal) => Err(book.confirmed(cells, input, refusal)),
    }
}
