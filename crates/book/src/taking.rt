//! Taking what a logger is to write.
ghost use Rattle.std.specs.Prelude.{◌≡◌, ◌+◌, ◌<◌, ◌≤◌, []};
ghost use Rattle.board.specs.Seats.{noted};
ghost use Rattle.board.specs.declared.rule.WordStep.TheVariants.{LoadEpoch, StoreFloor};
ghost use Rattle.book.specs.Epochs.{found_epoch};
ghost use Rattle.book.specs.Batches.{IsBatchOf, IsTaken};

use crate::batch::Batch;
use crate::book::Book;
use crate::run::Run;
use crate::taken::Taken;
use board::Board;
use std::marker::PhantomData;

impl<K: Run> Book<K> {
    /// Takes what has committed of a logger's stream since the last take, for the logger to write outside the lock
    /// (Silo, section 4.10). The mark is E - 1, where E is the epoch that this call loads and stores as the logger's
    /// floor: every later commit has this E or a later one, since it loads E after this call. Constant time, without
    /// memory.
    pub fn take(&mut self, board: &Board, logger: u16) -> Batch
        requires board { board.now ≡ K.run.board }
        requires logger { logger < K.run.board.plan.loggers }
        ensures floor { self.new.seat
            ≡ noted (noted self.old.seat (LoadEpoch (result.mark + 1))) (StoreFloor logger (result.mark + 1)) }
        ensures later { found_epoch self.old.seat ≤ result.mark + 1 }
        ensures batch { IsBatchOf K.run.board.plan.loggers logger self.old result }
        ensures population { (result.scale ≡ K.run.first.scale) × (result.seed ≡ K.run.seed) }
        ensures taken { IsTaken K.run.board.plan.loggers logger self.old result self.new }
    {
        let epoch = board.floor(&mut self.seat, u64::from(logger));
        let loggers = self.streams.len() as u16;
        let stream = &mut self.streams[logger as usize];
        let (first, number_before, mark_before) = (stream.taken, stream.last_taken, stream.mark);
        let mark = epoch - 1;
        let entries = stream.take(mark);
        Batch {
            logger,
            loggers,
            scale: self.population.scale(),
            seed: self.population.seed(),
            first,
            number_before,
            mark_before,
            entries,
            mark,
        }
    }

    /// The same, with a pass that knows the history of then. Nothing more comes of epochs up to the mark, as the annals
    /// then say too. Constant time, without memory.
    pub fn taken(&mut self, board: &Board, logger: u16) -> Taken<K>
        requires board { board.now ≡ K.run.board }
        requires logger { logger < K.run.board.plan.loggers }
        ensures floor { self.new.seat ≡ noted (noted self.old.seat (LoadEpoch (result.batch.mark + 1)))
            (StoreFloor logger (result.batch.mark + 1)) }
        ensures later { found_epoch self.old.seat ≤ result.batch.mark + 1 }
        ensures batch { IsBatchOf K.run.board.plan.loggers logger self.old result.batch }
        ensures taken { IsTaken K.run.board.plan.loggers logger self.old result.batch self.new }
        ensures claim { result.claim
            ≡ record { front = self.old.history; mark = result.batch.mark; has = [] } }
    {
        let batch = self.take(board, logger);
        let pass = self.mark(batch.mark());
        Taken {
            batch,
            pass,
            run: PhantomData,
        }
    }
}
