//! A logger with its pass, and its turn.
ghost use Rattle.std.specs.Prelude.{◌≡◌, ◌↔◌, false, IsTrue, IfOk, OnErr, IsErrOf};
ghost use Rattle.money.specs.declared.refusal.Refusal.TheVariants.{OutOfMemory};
ghost use Rattle.annals.specs.Rule.{begun_claim};
ghost use Rattle.log_entries.specs.Following.{Continues};
ghost use Rattle.logfile.specs.Appended.{Appends};
ghost use Rattle.logger.specs.Logger.{MarksAndPublishes, local_mark};
ghost use Rattle.lane_logger.specs.Found.{IsFoundIn};
ghost use Rattle.lane_logger.specs.Lane.{KeepsLane};
ghost use Rattle.recover_opening.specs.Opening.{file_on};

use crate::logged::LoggedRun;
use annals::Pass;
use book::{Engine, Entry, Taken};
use log_disk::Disk;
use logger::Logger;
use money::Refusal;
use std::marker::{Model, PhantomData};

/// A logger of a run with a pass of the run's annals. Its type keeps that both are of the run, and, on modelled disks,
/// that its file is a lane of the logger's stream, as far as the pass knows the history (`KeepsLane`): so whatever a
/// crash leaves of it, now or inside its next turn, is a beginning of that stream.
#[derive(Drop)]
pub struct LaneLogger<K: LoggedRun, D: Disk> {
    logger: Logger<D>,
    pass: Pass<Entry>,
    run: PhantomData<K>,
}

impl<K: LoggedRun, D: Disk> Model for LaneLogger<K, D> {
    ghost use Rattle.std.specs.Prelude.{◌≡◌};
    ghost use Rattle.logger.specs.Logger.{local_mark};
    ghost use Rattle.recover_opening.specs.Opening.{file_on};
    ghost use Rattle.lane_logger.specs.Lane.{LaneView, KeepsLane};

    ghost Value = { LaneView D };

    ghost view = { λ l. record { logger = l.logger; claim = l.pass.claim } };

    ghost invariant = { λ l. (l.pass.table ≡ K.run.annals.table) × (l.logger.seat.board ≡ K.run.board)
        × (D.is_modelled → KeepsLane K.run K.found (file_on D.seen D.story l.logger.file) (local_mark l.logger.seat)
        l.pass.claim) };
}

impl<K: LoggedRun, D: Disk> LaneLogger<K, D> {
    /// A logger whose file is as the run names it, and so found open, with a pass of the beginning. Takes no memory.
    pub fn new(engine: &Engine<K>, logger: Logger<D>) -> LaneLogger<K, D>
        requires { IsFoundIn K.run.board K.found D.is_modelled D.seen D.story logger }
        ensures { result ≡ record { logger = logger; claim = begun_claim K.run.annals.base } }
    {
        // Who looks at a logger's file knows that the seat is its own.
        let _ = logger.file();
        LaneLogger {
            pass: engine.annals().begin(),
            logger,
            run: PhantomData,
        }
    }

    /// Whether a batch is of the file's logger and population, and begins where the file ends (`Continues`), as a turn
    /// asks of it. Constant time, no memory.
    pub fn may_append(&self, taken: &Taken<K>) -> bool
        ensures { IsTrue result ↔ Continues self.now.logger.file.header self.now.logger.file.count
            self.now.logger.file.number self.now.logger.file.last taken.now.batch }
    {
        self.logger.may_append(taken.batch())
    }

    /// The logger, with its file.
    pub fn logger(&self) -> &Logger<D>
        ensures logger { result.now ≡ self.now.logger }
        ensures own { result.now.seat.board ≡ K.run.board }
    {
        &self.logger
    }

    /// The logger, and the pass that knows of what its file is a lane.
    pub fn end(self) -> (Logger<D>, Pass<Entry>)
        ensures logger { result.0 ≡ self.logger }
        ensures pass { result.1 ≡ record { table = K.run.annals.table; claim = self.claim } }
        ensures own { result.0.seat.board ≡ K.run.board }
        ensures lane { D.is_modelled → KeepsLane K.run K.found (file_on D.seen D.story self.logger.file)
            (local_mark self.logger.seat) self.claim }
    {
        let LaneLogger {
            logger,
            pass,
            run: _,
        } = self;
        (logger, pass)
    }

    /// A logger's turn (Silo, section 4.10): as `Logger::turn`, of a batch that begins where the file ends. Once the
    /// batch has gone to the device the pass knows the history that it was taken of. Five loads more than that.
    ///
    /// # Errors
    ///
    /// As `Logger::turn`.
    pub fn turn(&mut self, engine: &Engine<K>, taken: &mut Taken<K>) -> Result<u64, Refusal>
        requires { Continues self.old.logger.file.header self.old.logger.file.count self.old.logger.file.number
            self.old.logger.file.last taken.old.batch }
        ensures taken { taken.new ≡ taken.old }
        ensures appends { Appends D.is_modelled D.seen D.story D.failed taken.old.batch result self.old.logger.file
            self.new.logger.file }
        ensures seat { IfOk result (λ least. MarksAndPublishes self.old.logger.file.header taken.old.batch.mark
            self.old.logger.seat least self.new.logger.seat) }
        ensures stays { OnErr result (self.new.logger.seat ≡ self.old.logger.seat) }
        ensures memory { IsErrOf result OutOfMemory → self.new.logger ≡ self.old.logger }
        ensures claim { IfOk result (λ least. self.new.claim ≡ taken.old.claim) }
    {
        let mut pass = taken.share(engine.annals());
        engine.annals().compare(&mut self.pass, &mut pass);
        let failed = self.logger.file().has_failed();
        let batch = taken.batch();
        // Who reads a batch's entries, or a logger's file, knows its rules.
        let _ = batch.entries();
        let result = self.logger.turn(engine.board(), batch);
        let _ = self.logger.file();
        if has_reached(failed, &result) {
            self.pass = pass;
        }
        result
    }
}

/// Whether a turn with this result has gone to the device: its file had not failed before, and there was memory.
fn has_reached(failed: bool, outcome: &Result<u64, Refusal>) -> bool
    ensures { IsTrue result ↔ ((failed ≡ false) × ¬ IsErrOf outcome.now OutOfMemory) }
{
    !failed && !matches!(outcome, Err(Refusal::OutOfMemory))
}
