//! The two steps of a try: an execution without a lock, and a commit under the book's.
ghost use Rattle.std.specs.Prelude.{◌≡◌, length, IfOk, IfErr};
ghost use Rattle.tables.specs.Inputs.{IsInput};
ghost use Rattle.cells.specs.Records.{HasGrown};
ghost use Rattle.readset.specs.Transaction.{IsExecuted};
ghost use Rattle.book.specs.Book.{BookView, IsWorkOf};
ghost use Rattle.terminals.specs.Telling.{IsCited};
ghost use Rattle.terminals.specs.Terminal.{IsEntered, with_commit};
ghost use Rattle.terminals.specs.Tries.{IsSoundBook, IsTurnedAway};

use annals::Pass;
use book::{Book, Done, Engine, Entry, Run, Share};
use cells::Reader;
use money::Refusal;
use readset::Work;
use std::alloc::Global;
use std::sync::Wait;
use tables::Input;
use transactions::execute;

/// Executes an input, as `execute` does.
pub(crate) fn execute_at<K: Run, R: Wait>(
    rt: &R,
    alloc: Global,
    engine: &Engine<K>,
    reader: &mut Reader,
    input: &Input,
) -> Result<Work, Refusal>
    requires input { IsInput K.run.first.scale input.now }
    requires reader { reader.old.cells ≡ K.run.cells }
    ensures executed { IsExecuted K.run.first input.now reader.old reader.new result }
    ensures work { IfOk result (IsWorkOf K.run.first K.run.cells reader.new) }
{
    execute(
        rt,
        alloc,
        engine.cells(),
        reader,
        engine.population(),
        input,
    )
}

/// Commits a work under the book's lock, as `Book::commit` does, and cites the commit in the same hold.
pub(crate) fn commit_at<K: Run, R: Wait>(
    rt: &R,
    engine: &Engine<K>,
    reader: &mut Reader,
    share: &mut Share<K>,
    work: Work,
) -> Result<(Done, Pass<Entry>), Refusal>
    requires reader { reader.old.cells ≡ K.run.cells }
    requires work { IsWorkOf K.run.first K.run.cells reader.old work }
    ensures reader { HasGrown reader.old reader.new }
    ensures ok { IfOk result (λ told. (share.new ≡ with_commit share.old)
        × ((book : BookView) × IsEntered K.run.past K.run.first book work.input share.old.terminal told.0)) }
    ensures cited { IfOk result (λ told. IsCited K.run.annals told.0 told.1) }
    ensures err { IfErr result (λ refusal. (share.new ≡ share.old)
        × ((book : BookView) × IsSoundBook K.run.past K.run.first book × IsTurnedAway K.run.past K.run.first book work refusal)) }
{
    commit_to(rt, engine, &mut engine.lock(rt), reader, share, work)
}

/// The same of a book that is at hand.
fn commit_to<K: Run, R: Wait>(
    rt: &R,
    engine: &Engine<K>,
    book: &mut Book<K>,
    reader: &mut Reader,
    share: &mut Share<K>,
    work: Work,
) -> Result<(Done, Pass<Entry>), Refusal>
    requires reader { reader.old.cells ≡ K.run.cells }
    requires work { IsWorkOf K.run.first K.run.cells reader.old work }
    ensures reader { HasGrown reader.old reader.new }
    ensures sound { IsSoundBook K.run.past K.run.first book.old }
    ensures ok { IfOk result (λ told. (share.new ≡ with_commit share.old)
        × IsEntered K.run.past K.run.first book.old work.input share.old.terminal told.0) }
    ensures cited { IfOk result (λ told. IsCited K.run.annals told.0 told.1) }
    ensures err { IfErr result (λ refusal. (share.new ≡ share.old)
        × IsTurnedAway K.run.past K.run.first book.old work refusal) }
{
    // The contract of the history says that the book is sound.
    let _ = book.history();
    match book.commit(rt, engine.board(), engine.cells(), reader, share, work) {
        Ok(done) => Ok((done, book.cite())),
        Err(refusal) => Err(refusal),
    }
}
