//! Committing a transaction.
ghost use Rattle.std.specs.Prelude.{◌≡◌, ◌≢◌, ℕ, ◌+◌, ◌⊎◌, length, MatchResult, IfOk, IfErr};
ghost use Rattle.money.specs.declared.refusal.Refusal.TheVariants.{OutOfMemory, Conflict, EpochFull};
ghost use Rattle.commit.specs.Machine.{Machine};
ghost use Rattle.cells.specs.Records.{HasGrown};
ghost use Rattle.book.specs.History.{replay};
ghost use Rattle.book.specs.Committing.{CommitsWork, DeclinesWork};
ghost use Rattle.book.specs.Epochs.{CountsCommit, LoadsEpoch, found_epoch};
ghost use Rattle.book.specs.Book.{IsWorkOf};
ghost use Rattle.book.specs.Next.{IsNextCommit, IsRefusedAt};
ghost use Rattle.book.specs.Shows.{Mirrors, IsCommitRun, IsFailedRun, reads_of};

use crate::book::Book;
use crate::counting::store_counted;
use crate::done::Done;
use crate::keeping::keep;
use crate::prepare::{Place, Prepared, prepare};
use crate::run::Run;
use crate::share::Share;
use crate::steps::{in_order, validate};
use board::Board;
use cells::{Cells, Reader};
use money::Refusal;
use readset::Work;
use std::sync::Wait;

impl<K: Run> Book<K> {
    /// Commits a transaction that this reader has executed, as the next in the history (Silo, section 4.4). Costs a
    /// comparison a record read; a store, a comparison, a copy, a load and a step of the totals a record written; and
    /// constant time, amortized, for the history and the logger's stream. May wait, at a record's cell alone.
    ///
    /// Where the versions read are the latest, the transaction is done at the committed tables: its reply and its
    /// writes are those of its definition there, though it may be refused. Its TID is the least of the epoch E that is
    /// larger than all TIDs that it has read and than its terminal's last (`next_tid`). This call loads E from the
    /// board. It does so before it looks at the first version, as Silo does, which no clause can ask for. After Ok its
    /// input is the next commit, the board has counted it with this E, and the reader has seen the versions stored.
    ///
    /// To a machine of the commit protocol that shows the book to the terminal as any one of its workers, the commit is
    /// a run: the worker locks what it writes, reads the epoch, validates, takes this TID and installs, or fails at the
    /// first read that isn't current. Between its events other workers may begin and read, and the epoch may go on as
    /// long as the worker reads this one: each event may still happen, and the records and the worker end the same.
    ///
    /// # Errors
    ///
    /// `Conflict` exactly where a version read isn't its record's latest; then `CommitsFull` exactly at the commit cap;
    /// then `EpochFull` exactly where `next_tid` has no TID, which doesn't happen: the commit cap comes first; then
    /// `OutOfMemory`. A refusal drops the work, and records, history, streams and share are as before; the reader may
    /// have seen more, and the book's seat has loaded E.
    pub fn commit<R: Wait>(
        &mut self,
        rt: &R,
        board: &Board,
        cells: &Cells,
        reader: &mut Reader,
        share: &mut Share<K>,
        work: Work,
    ) -> Result<Done, Refusal>
        requires board { board.now ≡ K.run.board }
        requires cells { cells.now ≡ K.run.cells }
        requires reader { reader.old.cells ≡ K.run.cells }
        requires work { IsWorkOf K.run.first K.run.cells reader.old work }
        ensures reader { HasGrown reader.old reader.new }
        ensures epoch { MatchResult result (λ done. CountsCommit self.old.seat self.new.seat)
            (λ refusal. LoadsEpoch self.old.seat self.new.seat) }
        ensures committed { IfOk result
            (CommitsWork K.run.past K.run.first self.old self.new share.old share.new reader.new work) }
        ensures declined { IfErr result (DeclinesWork K.run.past K.run.first self.old self.new share.old share.new work) }
        ensures next { IfOk result (IsNextCommit K.run.past K.run.first self.old.history self.new.history work.input) }
        ensures refused { IfErr result (λ refusal. (refusal ≡ Conflict) ⊎ (refusal ≡ OutOfMemory)
            ⊎ IsRefusedAt (replay K.run.first self.old.history) (K.run.past + length self.old.history) work.input refusal) }
        ensures section { (m : Machine) (w : ℕ)
            → Mirrors self.old share.old.terminal (found_epoch self.new.seat) work.reads m w
            → MatchResult result
            (λ done. IsCommitRun m w (reads_of work.reads) work.writes.values done.tid self.new.written)
            (λ refusal. IsFailedRun m w (reads_of work.reads) work.writes.values refusal) }
        ensures cap_first { IfErr result (λ refusal. refusal ≢ EpochFull) }
    {
        let Work {
            input,
            reads,
            writes,
            reply,
        } = work;
        in_order(&reads, &writes);
        let epoch = board.epoch(&mut self.seat);
        let Some(seen) = validate(rt, cells, &mut self.pen, reader, &reads) else {
            return Err(Refusal::Conflict);
        };
        let place = Place {
            cap: self.population.scale().commits(),
            past: self.past,
            epoch: epoch as u32,
            seen,
            terminal: share.terminal,
            last: self.lasts[share.terminal as usize],
        };
        let logger = share.terminal as usize % self.streams.len();
        let stream = &mut self.streams[logger];
        let Prepared {
            tid,
            entry,
            waiting,
            done,
        } = match prepare(&mut self.history, stream, place, input, reply, writes) {
            Ok(prepared) => prepared,
            Err(refusal) => return Err(refusal),
        };
        store_counted(rt, cells, &mut self.pen, reader, &mut self.totals, &entry);
        keep(&self.annals, &mut self.annalist, epoch, &entry);
        stream.add(waiting);
        self.history.push_reserved(entry);
        self.lasts[share.terminal as usize] = tid;
        self.shares.add(&mut share.part, 1);
        board.commit_step(&mut self.seat, epoch);
        Ok(done)
    }
}
