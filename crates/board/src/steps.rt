//! The eight kinds of step, each at one word, and how a seat tells another one of D.
//!
//! A method of a ruled table is dear to prove where it is called, so each is called in one small function.
ghost use Rattle.std.specs.Prelude.{◌≡◌, ℕ, ◌+◌, ◌-◌, ◌^◌, ◌<◌, ◌≤◌, false, [], length};
ghost use Rattle.tables.specs.declared.limits.TheConstants.{MAX_LOGGERS};
ghost use Rattle.board.specs.declared.rule.Role.TheVariants.{Book, Clock, Logger};
ghost use Rattle.board.specs.declared.rule.WordStep.TheVariants.{AddEpoch, CountCommit, StoreFloor};
ghost use Rattle.board.specs.declared.rule.WordStep.TheVariants.{StoreMark, LoadMark, RaiseDurable};
ghost use Rattle.board.specs.Steps.{known_epoch, counted_epochs, stored_mark};
ghost use Rattle.board.specs.Words.{last_epoch};
ghost use Rattle.board.specs.Rule.{is_gone};
ghost use Rattle.board.specs.Dealing.{told_view};
ghost use Rattle.board.specs.Plays.{HasSeatAt, IsUpToMarks, with_step, with_seen, LoadsEpochOf, LoadsDurableOf};

use crate::rule::{
    AddsEpoch, CountsCommit, EpochRule, GathersDurable, LoadsDurable, LoadsEpoch, LoadsMark, Plan,
    RaisesDurable, StoresFloor, StoresMark, TellsDurable, View,
};
use crate::seats::WordSeat;
use atomic_table::Shared;
use tables::limits::MAX_LOGGERS;

/// The words of a board, as threads see them.
pub(crate) type Words = Shared<(), View, Plan, EpochRule>;

// Where a word stands: local marks from 0, and floors behind them.
const FLOORS: usize = MAX_LOGGERS as usize;

pub(crate) const EPOCH: usize = 2 * FLOORS;

pub(crate) const COUNT: usize = EPOCH + 1;

pub(crate) const DURABLE: usize = EPOCH + 2;

// How many words there are.
pub(crate) const WORDS: usize = EPOCH + 3;

// Loads E.
pub(crate) fn load_epoch(words: &Words, seat: &mut WordSeat) -> u64
    requires own { HasSeatAt words.now.table_id seat.old }
    requires here { is_gone seat.old.me.0.role ≡ false }
    ensures own { seat.new.table_id ≡ seat.old.table_id }
    ensures told { LoadsEpochOf seat.old.me.0 result seat.new.me.0 }
{
    words.load::<LoadsEpoch>(seat, EPOCH)
}

// Adds one to E. Gives what it was.
pub(crate) fn add_epoch(words: &Words, seat: &mut WordSeat) -> u64
    requires own { HasSeatAt words.now.table_id seat.old }
    requires clock { seat.old.me.0.role ≡ Clock }
    requires room { known_epoch seat.old.me.0.plan.base seat.old.me.0.steps < last_epoch }
    ensures own { seat.new.table_id ≡ seat.old.table_id }
    ensures known { known_epoch seat.old.me.0.plan.base seat.old.me.0.steps ≡ result }
    ensures told { seat.new.me.0 ≡ with_step seat.old.me.0 (AddEpoch (result + 1)) }
{
    words.fetch_add::<AddsEpoch>(seat, EPOCH, 1)
}

// Adds one to the commit count.
pub(crate) fn count_commit(words: &Words, seat: &mut WordSeat)
    requires own { HasSeatAt words.now.table_id seat.old }
    requires book { seat.old.me.0.role ≡ Book }
    requires room { length (counted_epochs seat.old.me.0.steps) < 2 ^ 64 - 1 }
    ensures own { seat.new.table_id ≡ seat.old.table_id }
    ensures told { seat.new.me.0 ≡ with_step seat.old.me.0
        (CountCommit (known_epoch seat.old.me.0.plan.base seat.old.me.0.steps)) }
{
    words.fetch_add::<CountsCommit>(seat, COUNT, 1);
}

// Stores the last E that was loaded as a logger's floor.
pub(crate) fn store_floor(words: &Words, seat: &mut WordSeat, logger: u64, epoch: u64)
    requires own { HasSeatAt words.now.table_id seat.old }
    requires book { seat.old.me.0.role ≡ Book }
    requires logger { logger < MAX_LOGGERS }
    requires loaded { epoch ≡ known_epoch seat.old.me.0.plan.base seat.old.me.0.steps }
    ensures own { seat.new.table_id ≡ seat.old.table_id }
    ensures told { seat.new.me.0 ≡ with_step seat.old.me.0 (StoreFloor logger epoch) }
{
    words.store::<StoresFloor>(seat, FLOORS + logger as usize, epoch);
}

// Stores a logger's local mark, which is no lower than the one before.
pub(crate) fn store_mark(words: &Words, seat: &mut WordSeat, logger: u64, mark: u64)
    requires own { HasSeatAt words.now.table_id seat.old }
    requires logger { (seat.old.me.0.role ≡ Logger logger) × (logger < MAX_LOGGERS) }
    requires more { stored_mark seat.old.me.0.plan.base seat.old.me.0.steps ≤ mark }
    ensures own { seat.new.table_id ≡ seat.old.table_id }
    ensures told { seat.new.me.0 ≡ with_step seat.old.me.0 (StoreMark logger mark) }
{
    words.store::<StoresMark>(seat, logger as usize, mark);
}

// Loads a logger's local mark.
pub(crate) fn load_mark(words: &Words, seat: &mut WordSeat, logger: u64) -> u64
    requires own { HasSeatAt words.now.table_id seat.old }
    requires logger { logger < MAX_LOGGERS }
    ensures own { seat.new.table_id ≡ seat.old.table_id }
    ensures told { seat.new.me.0 ≡ with_step seat.old.me.0 (LoadMark logger result) }
{
    words.load::<LoadsMark>(seat, logger as usize)
}

// Raises D to an epoch that is at most every local mark.
pub(crate) fn raise_durable(words: &Words, seat: &mut WordSeat, epoch: u64)
    requires own { HasSeatAt words.now.table_id seat.old }
    requires here { is_gone seat.old.me.0.role ≡ false }
    requires below { IsUpToMarks seat.old.me.0 epoch }
    ensures own { seat.new.table_id ≡ seat.old.table_id }
    ensures told { seat.new.me.0 ≡ with_step seat.old.me.0 (RaiseDurable epoch) }
{
    words.fetch_max::<RaisesDurable>(seat, DURABLE, epoch);
}

// Loads D.
pub(crate) fn load_durable(words: &Words, seat: &mut WordSeat) -> u64
    requires own { HasSeatAt words.now.table_id seat.old }
    requires here { is_gone seat.old.me.0.role ≡ false }
    ensures own { seat.new.table_id ≡ seat.old.table_id }
    ensures told { (seat.new.me.1 ≡ seat.old.me.1) × LoadsDurableOf seat.old.me.0 result seat.new.me.0 }
{
    words.load::<LoadsDurable>(seat, DURABLE)
}

// A terminal's seat that knows what this one knows.
pub(crate) fn tell_durable(words: &Words, seat: &mut WordSeat) -> WordSeat
    requires own { HasSeatAt words.now.table_id seat.old }
    requires here { is_gone seat.old.me.0.role ≡ false }
    ensures same { (seat.new.table_id ≡ seat.old.table_id) × (seat.new.me ≡ seat.old.me) }
    ensures told { (result.table_id ≡ seat.old.table_id) × (result.me ≡ (told_view seat.old.me.0, [])) }
{
    words.split_seat::<TellsDurable>(seat)
}

// Lets a seat know what another one has seen of D.
pub(crate) fn learn_durable(words: &Words, seat: &mut WordSeat, other: WordSeat)
    requires own { HasSeatAt words.now.table_id seat.old }
    requires other { (other.table_id ≡ words.now.table_id) × (other.me.1 ≡ []) }
    requires here { is_gone other.me.0.role ≡ false }
    ensures own { seat.new.table_id ≡ seat.old.table_id }
    ensures told { seat.new.me ≡ (with_seen seat.old.me.0 other.me.0, seat.old.me.1) }
{
    words.join_seat::<GathersDurable>(seat, other);
}
