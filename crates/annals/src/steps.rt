//! Each step, in a function of its own: a method of a ruled table is dear to prove where it is called.
ghost use Rattle.std.specs.Prelude.{◌≡◌, ◌+◌, ◌≤◌, true, []};
ghost use Rattle.annals.specs.Plays.{HasPassAt, Comparing, with_entry, with_raised_mark};
ghost use Rattle.annals.specs.Rule.{begun_pass, shared_pass, cited_pass, gathered, hearing};

use crate::claims::{Dated, Known};
use crate::rule::{Adds, AnnalsRule, Begins, Cites, Compares, Gathers, Hears, Marks, Shares};
use atomic_table::{Seat, Shared};

/// The word of annals, as threads see it.
pub(crate) type Word<S> = Shared<S, Known<S>, u64, AnnalsRule>;

/// What steps on it.
pub(crate) type WordSeat<S> = Seat<S, Known<S>>;

// Adds an entry of the epoch behind a mark.
pub(crate) fn add_entry<S: Dated>(word: &Word<S>, seat: &mut WordSeat<S>, mark: u64, entry: &S)
    requires own { HasPassAt word.now.table_id seat.old.table_id }
    requires keeper { seat.old.me.0.keeps ≡ true }
    requires later { seat.old.me.0.own.mark ≤ mark }
    requires date { S.date entry.now ≡ mark + 1 }
    ensures own { seat.new.table_id ≡ seat.old.table_id }
    ensures told { seat.new.me ≡ (with_entry seat.old.me.0 mark entry.now, seat.old.me.1) }
{
    word.compare_exchange_with::<Adds>(seat, 0, mark, mark, entry);
}

// Raises the mark.
pub(crate) fn raise_mark<S: Dated>(word: &Word<S>, seat: &mut WordSeat<S>, mark: u64)
    requires own { HasPassAt word.now.table_id seat.old.table_id }
    requires keeper { seat.old.me.0.keeps ≡ true }
    requires later { seat.old.me.0.own.mark ≤ mark }
    ensures own { seat.new.table_id ≡ seat.old.table_id }
    ensures told { seat.new.me ≡ (with_raised_mark seat.old.me.0 mark, seat.old.me.1) }
{
    word.store::<Marks>(seat, 0, mark);
}

// A pass of the annals' beginning.
pub(crate) fn begin_pass<S: Dated>(word: &Word<S>) -> WordSeat<S>
    requires { HasPassAt word.now.table_id word.now.table_id }
    ensures own { result.table_id ≡ word.now.table_id }
    ensures told { result.me ≡ (begun_pass word.now.key, []) }
{
    let (_, seat) = word.load_new_seat::<Begins>(0);
    seat
}

// A pass with the same claim.
pub(crate) fn share_pass<S: Dated>(word: &Word<S>, seat: &mut WordSeat<S>) -> WordSeat<S>
    requires { HasPassAt word.now.table_id seat.old.table_id }
    ensures same { (seat.new.table_id ≡ seat.old.table_id) × (seat.new.me ≡ seat.old.me) }
    ensures pass { (result.table_id ≡ seat.old.table_id) × (result.me ≡ (shared_pass seat.old.me.0, [])) }
{
    word.split_seat::<Shares>(seat)
}

// A pass which claims that the last entry is there.
pub(crate) fn cite_pass<S: Dated>(word: &Word<S>, seat: &mut WordSeat<S>) -> WordSeat<S>
    requires { HasPassAt word.now.table_id seat.old.table_id }
    ensures same { (seat.new.table_id ≡ seat.old.table_id) × (seat.new.me ≡ seat.old.me) }
    ensures pass { (result.table_id ≡ seat.old.table_id) × (result.me ≡ (cited_pass seat.old.me.0, [])) }
{
    word.split_seat::<Cites>(seat)
}

// Takes in what another pass says is there.
pub(crate) fn gather_pass<S: Dated>(word: &Word<S>, seat: &mut WordSeat<S>, other: WordSeat<S>)
    requires own { HasPassAt word.now.table_id seat.old.table_id }
    requires other { (other.table_id ≡ word.now.table_id) × (other.me.1 ≡ []) }
    ensures own { seat.new.table_id ≡ seat.old.table_id }
    ensures told { seat.new.me ≡ (gathered seat.old.me.0 other.me.0, seat.old.me.1) }
{
    word.join_seat::<Gathers>(seat, other);
}

// Hears what another pass claims.
pub(crate) fn hear_pass<S: Dated>(word: &Word<S>, seat: &mut WordSeat<S>, other: WordSeat<S>)
    requires own { HasPassAt word.now.table_id seat.old.table_id }
    requires other { (other.table_id ≡ word.now.table_id) × (other.me.1 ≡ []) }
    ensures own { seat.new.table_id ≡ seat.old.table_id }
    ensures told { seat.new.me ≡ (hearing seat.old.me.0 other.me.0, seat.old.me.1) }
{
    word.join_seat::<Hears>(seat, other);
}

// Compares a claim with the one that was heard.
pub(crate) fn compare_claims<S: Dated>(word: &Word<S>, seat: &mut WordSeat<S>)
    requires { HasPassAt word.now.table_id seat.old.table_id }
    ensures own { seat.new.table_id ≡ seat.old.table_id }
    ensures told { Comparing S.date seat.old.me seat.new.me }
{
    word.load::<Compares>(seat, 0);
}
