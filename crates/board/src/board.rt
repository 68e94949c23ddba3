//! The calls of a board.
ghost use Rattle.std.specs.Prelude.{◌≡◌, ℕ, ◌+◌, ◌-◌, ◌^◌, ◌<◌, ◌≤◌, List, length, MatchResult};
ghost use Rattle.board.specs.Words.{last_epoch};
ghost use Rattle.money.specs.declared.refusal.Refusal.TheVariants.{EpochFull};
ghost use Rattle.board.specs.declared.rule.WordStep.TheVariants.{LoadEpoch, AddEpoch, CountCommit, StoreFloor};
ghost use Rattle.board.specs.declared.rule.WordStep.TheVariants.{StoreMark, LoadDurable};
ghost use Rattle.board.specs.Steps.{known_epoch, counted_epochs, stored_mark, seen_durable, RespectsFloors};
ghost use Rattle.board.specs.Seats.{noted, logger_number};
ghost use Rattle.board.specs.Publishing.{IsLeastMark, Publishes, with_loads};
ghost use Rattle.board.specs.Opening.{EndsWithDurable};

use crate::keeper::Keeper;
use crate::rule::{EpochRule, Plan, View};
use crate::seats::{BookSeat, ClockSeat, LoggerSeat, TerminalSeat};
use crate::steps::{
    DURABLE, add_epoch, count_commit, learn_durable, load_durable, load_epoch, load_mark,
    raise_durable, store_floor, store_mark, tell_durable,
};
use atomic_table::Table;
use money::Refusal;
use std::alloc::Global;
use std::marker::Model;
use tables::limits::LAST_EPOCH;

/// The epoch words of an engine. Contracts see which words they are, and what they opened with (`BoardView`). Each call
/// takes one step or a few, never waits, and takes no memory.
#[derive(Drop)]
pub struct Board {
    pub(crate) table: Table<(), View, Plan, EpochRule, Global>,
    pub(crate) plan: Plan,
}

impl Model for Board {
    ghost use Rattle.board.specs.Opening.{IsBoard};
    ghost use Rattle.board.specs.Seats.{BoardView};

    ghost Value = { BoardView };

    ghost view = { λ b. record { table = b.table.shared.table_id; plan = b.plan } };

    ghost invariant = { λ b. IsBoard b.table.shared.table_id b.table.shared.key b.plan };
}

impl Board {
    /// E (Silo, section 4.1): from 1 to 4,294,967,295, and no lower than this seat has found it before. One load.
    pub fn epoch(&self, seat: &mut BookSeat) -> u64
        requires { seat.old.board ≡ self.now }
        ensures step { seat.new ≡ noted seat.old (LoadEpoch result) }
        ensures later { known_epoch self.now.plan.base seat.old.steps ≤ result }
        ensures bound { result ≤ last_epoch }
        ensures respects { RespectsFloors seat.new.steps }
    {
        load_epoch(&self.table.shared, &mut seat.seat)
    }

    /// Adds one to E, and gives the new E. A load and an addition: nobody else changes E.
    ///
    /// # Errors
    ///
    /// `EpochFull` exactly where E is the last epoch, 4,294,967,295. E stays.
    pub fn advance(&self, seat: &mut ClockSeat) -> Result<u64, Refusal>
        requires { seat.old.board ≡ self.now }
        ensures { let known = known_epoch self.now.plan.base seat.old.steps in MatchResult result
            (λ epoch. (known < last_epoch) × (epoch ≡ known + 1)
            × (seat.new ≡ noted (noted seat.old (LoadEpoch known)) (AddEpoch epoch)))
            (λ refusal. (refusal ≡ EpochFull) × (known ≡ last_epoch)
            × (seat.new ≡ noted seat.old (LoadEpoch known))) }
    {
        let before = load_epoch(&self.table.shared, &mut seat.seat);
        if before >= LAST_EPOCH {
            return Err(Refusal::EpochFull);
        }
        let found = add_epoch(&self.table.shared, &mut seat.seat);
        Ok(found + 1)
    }

    /// Counts a commit of this epoch, the last E that this seat has loaded. One addition.
    pub fn commit_step(&self, seat: &mut BookSeat, epoch: u64)
        requires own { seat.old.board ≡ self.now }
        requires loaded { epoch ≡ known_epoch self.now.plan.base seat.old.steps }
        requires room { length (counted_epochs seat.old.steps) < 2 ^ 64 - 1 }
        ensures { seat.new ≡ noted seat.old (CountCommit epoch) }
    {
        // The board counts commits alone; their epochs are noted in the seat.
        let _ = epoch;
        count_commit(&self.table.shared, &mut seat.seat);
    }

    /// Makes E a logger's floor, and gives it: no commit that this seat counts from now on has a lower epoch. A load of
    /// E, and a store.
    pub fn floor(&self, seat: &mut BookSeat, logger: u64) -> u64
        requires own { seat.old.board ≡ self.now }
        requires logger { logger < self.now.plan.loggers }
        ensures step { seat.new ≡ noted (noted seat.old (LoadEpoch result)) (StoreFloor logger result) }
        ensures later { known_epoch self.now.plan.base seat.old.steps ≤ result }
        ensures bound { result ≤ last_epoch }
    {
        let epoch = load_epoch(&self.table.shared, &mut seat.seat);
        store_floor(&self.table.shared, &mut seat.seat, logger, epoch);
        epoch
    }

    /// Makes what a file keeps this logger's local mark, and so notes it as kept (Silo, section 4.10). One store.
    pub fn set_local<F: Keeper>(&self, seat: &mut LoggerSeat, file: &F)
        requires own { seat.old.board ≡ self.now }
        requires more { stored_mark self.now.plan.base seat.old.steps ≤ F.mark file.now }
        ensures { seat.new ≡ noted seat.old (StoreMark (logger_number seat.old.role) (F.mark file.now)) }
    {
        let mark = file.kept();
        store_mark(&self.table.shared, &mut seat.seat, seat.number, mark);
    }

    /// Raises D to the least local mark of all loggers, and gives that (Silo, section 4.10). D is then at least this.
    /// A load a logger, and a step that raises D where it is lower.
    pub fn publish(&self, seat: &mut LoggerSeat) -> u64
        requires { seat.old.board ≡ self.now }
        ensures marks { Publishes self.now.plan.loggers seat.old result seat.new }
        ensures local { stored_mark self.now.plan.base seat.new.steps
            ≡ stored_mark self.now.plan.base seat.old.steps }
    {
        let least = self.least_mark(seat);
        raise_durable(&self.table.shared, &mut seat.seat, least);
        least
    }

    // The least local mark, by a load of each.
    fn least_mark(&self, seat: &mut LoggerSeat) -> u64
        requires { seat.old.board ≡ self.now }
        ensures same { (seat.new.board ≡ seat.old.board) × (seat.new.role ≡ seat.old.role) }
        ensures loads { (marks : List ℕ) × (length marks ≡ self.now.plan.loggers) × IsLeastMark result marks
            × (seat.new.steps ≡ with_loads marks seat.old.steps) }
    {
        let mut least = load_mark(&self.table.shared, &mut seat.seat, 0);
        for logger in 1..self.plan.loggers {
            let mark = load_mark(&self.table.shared, &mut seat.seat, logger);
            least = least.min(mark);
        }
        least
    }

    /// D, the durable epoch (Silo, section 4.10): no lower than this seat has found it before. One load.
    pub fn durable(&self, seat: &mut TerminalSeat) -> u64
        requires { seat.old.board ≡ self.now }
        ensures step { seat.new ≡ noted seat.old (LoadDurable result) }
        ensures later { seen_durable self.now.plan.base seat.old.steps ≤ result }
    {
        load_durable(&self.table.shared, &mut seat.seat)
    }

    /// Lets a terminal's seat know what another one, which is given up, has seen of D. One load.
    pub fn gather_durable(&self, seat: &mut TerminalSeat, other: TerminalSeat)
        requires { (seat.old.board ≡ self.now) × (other.board ≡ self.now) }
        ensures { seat.new ≡ noted seat.old (LoadDurable (seen_durable self.now.plan.base other.steps)) }
    {
        learn_durable(&self.table.shared, &mut seat.seat, other.seat);
    }

    /// D, by a logger: no lower than this terminal's seat has found it, and no more than the logger has noted as kept.
    /// Three loads.
    pub fn durable_of(&self, seat: &mut LoggerSeat, terminal: &mut TerminalSeat) -> u64
        requires { (seat.old.board ≡ self.now) × (terminal.old.board ≡ self.now) }
        ensures same { terminal.new ≡ terminal.old }
        ensures own { (seat.new.board ≡ seat.old.board) × (seat.new.role ≡ seat.old.role) }
        ensures local { stored_mark self.now.plan.base seat.new.steps
            ≡ stored_mark self.now.plan.base seat.old.steps }
        ensures seen { seen_durable self.now.plan.base terminal.old.steps ≤ result }
        ensures kept { result ≤ stored_mark self.now.plan.base seat.old.steps }
    {
        let words = &self.table.shared;
        let told = tell_durable(words, &mut terminal.seat);
        learn_durable(words, &mut seat.seat, told);
        load_durable(words, &mut seat.seat)
    }

    /// The last D, once no thread shares the board any more: what a logger that gives its seat back has seen, or more,
    /// and no more than this logger has noted as kept.
    pub fn close(self, seat: LoggerSeat) -> u64
        requires { seat.board ≡ self }
        ensures kept { result ≤ stored_mark self.plan.base seat.steps }
        ensures seen { seen_durable self.plan.base seat.steps ≤ result }
        ensures rule { EndsWithDurable self seat result }
    {
        let Board { table, plan: _ } = self;
        let LoggerSeat { seat, number: _ } = seat;
        let closed = table.close_with(seat);
        let durable = closed.word(DURABLE);
        closed.free();
        durable
    }
}
