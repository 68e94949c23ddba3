//! A logger, and its turn.
ghost use Rattle.std.specs.Prelude.{◌≡◌, ◌≤◌, ◌↔◌, IsTrue, IfOk, OnErr, IsErrOf};
ghost use Rattle.money.specs.declared.refusal.Refusal.TheVariants.{OutOfMemory};
ghost use Rattle.log_entries.specs.Following.{Continues};
ghost use Rattle.logfile.specs.Appended.{Appends};
ghost use Rattle.logfile.specs.Standing.{IsKept};
ghost use Rattle.logger.specs.Logger.{IsLoggerOf, MarksAndPublishes, local_mark};

use board::{Board, Keeper, LoggerSeat};
use book::Batch;
use log_disk::Disk;
use logfile::LogFile;
use money::Refusal;
use std::marker::Model;

/// A logger: its open file, and its seat of the board. Its type keeps that the file's header names the seat's logger
/// and how many loggers the board has, and that the seat's local mark is at most what the file keeps. So a local mark
/// says what is on the disk.
#[derive(Drop)]
pub struct Logger<D: Disk> {
    file: LogFile<D>,
    seat: LoggerSeat,
}

impl<D: Disk> Model for Logger<D> {
    ghost use Rattle.logger.specs.Logger.{LoggerView, IsLoggerOf};

    ghost Value = { LoggerView D };

    ghost view = { λ l. record { file = l.file; seat = l.seat } };

    ghost invariant = { λ l. IsLoggerOf l.file.header l.file.last.mark l.seat };
}

impl<D: Disk> Logger<D> {
    /// A logger of a file and of the seat whose file it is. A new file and a seat with which nobody has stepped, on a
    /// board that opened with no commits, are such. Takes no memory.
    pub fn new(file: LogFile<D>, seat: LoggerSeat) -> Logger<D>
        requires { IsLoggerOf file.header file.last.mark seat }
        ensures { result ≡ record { file = file; seat = seat } }
    {
        Logger { file, seat }
    }

    /// Whether a batch is of the file's logger and population, and begins where the file ends (`Continues`), as a turn
    /// asks of it. Constant time, no memory.
    pub fn may_append(&self, batch: &Batch) -> bool
        ensures { IsTrue result
            ↔ Continues self.now.file.header self.now.file.count self.now.file.number self.now.file.last batch.now }
    {
        self.file.is_continued_by(batch)
    }

    /// The file.
    pub fn file(&self) -> &LogFile<D>
        ensures file { result.now ≡ self.now.file }
        ensures own { IsLoggerOf self.now.file.header self.now.file.last.mark self.now.seat }
    {
        &self.file
    }

    /// The epoch up to which the file keeps its logger's commits, whatever a crash leaves (`IsKept`): the local mark on
    /// the board is this, or less. Constant time, no memory.
    pub fn kept(&self) -> u64
        ensures mark { result ≡ self.now.file.last.mark }
        ensures kept { D.is_modelled → ∥ IsKept self.now.file.header (D.story self.now.file.disk) result ∥₁ }
        ensures local { local_mark self.now.seat ≤ result }
    {
        self.file.kept()
    }

    /// The file and the seat.
    pub fn end(self) -> (LogFile<D>, LoggerSeat)
        ensures file { result.0 ≡ self.file }
        ensures seat { result.1 ≡ self.seat }
        ensures own { IsLoggerOf self.file.header self.file.last.mark self.seat }
    {
        let Logger { file, seat } = self;
        (file, seat)
    }

    /// A logger's turn (Silo, section 4.10): appends a batch that begins where the file ends (`Continues`), one without
    /// entries too; makes what the file then keeps the local mark; and raises D to the least local mark of all loggers,
    /// which it answers. Of the file it says what `LogFile::append` does (`Appends`). Of the seat: on Ok one step more
    /// stored the file's mark, and then came those of a publication; after a refusal it is as before, and so are the
    /// board's words for all that this logger did.
    ///
    /// # Errors
    ///
    /// `OutOfMemory`, before the first call of the device: nothing has changed then, and the same batch may be tried
    /// again. `Device` exactly where the device fails in this turn or an earlier append failed so: from then on every
    /// turn answers it, and the local mark stays.
    pub fn turn(&mut self, board: &Board, batch: &Batch) -> Result<u64, Refusal>
        requires own { self.old.seat.board ≡ board.now }
        requires continues { Continues self.old.file.header self.old.file.count self.old.file.number self.old.file.last
            batch.now }
        ensures appends { Appends D.is_modelled D.seen D.story D.failed batch.now result self.old.file self.new.file }
        ensures seat { IfOk result (λ least.
            MarksAndPublishes self.old.file.header batch.now.mark self.old.seat least self.new.seat) }
        ensures stays { OnErr result (self.new.seat ≡ self.old.seat) }
        ensures memory { IsErrOf result OutOfMemory → self.new ≡ self.old }
    {
        // Who reads a batch's entries knows its rules: its mark is no lower than the one before.
        let _ = batch.entries();
        self.file.append(batch)?;
        Ok(publish_kept(board, &mut self.seat, &self.file))
    }
}

/// Makes what a file keeps its logger's local mark; then raises D to the least local mark, and answers that.
fn publish_kept<D: Disk>(board: &Board, seat: &mut LoggerSeat, file: &LogFile<D>) -> u64
    requires board { seat.old.board ≡ board.now }
    requires own { IsLoggerOf file.now.header file.now.last.mark seat.old }
    ensures marks { MarksAndPublishes file.now.header file.now.last.mark seat.old result seat.new }
    ensures own { IsLoggerOf file.now.header file.now.last.mark seat.new }
{
    board.set_local(seat, file);
    board.publish(seat)
}
