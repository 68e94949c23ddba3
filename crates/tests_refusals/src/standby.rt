//! A terminal that stands in for another.
ghost use Rattle.std.specs.Prelude.{◌≡◌, IfOk};
ghost use Rattle.tables.specs.Inputs.{IsInput};
ghost use Rattle.tables.specs.Sizes.{Sizes};

use crate::inputs::SEED;
use book::{Done, Engine, Run, Seat};
use money::Refusal;
use std::alloc::Global;
use std::sync::Wait;
use tables::{Input, Scale};
use terminals_deck::{Deck, Settings};
use tests_one_logger::commit;

/// The deck of the terminal that it stands in for, as it begins.
pub(crate) fn deck(scale: Scale) -> Deck
    ensures { result.scale ≡ scale }
{
    Deck::new(scale, Settings::usual(), SEED, 0)
}

/// Its input of this place, from 0.
fn input_at(alloc: Global, scale: Scale, place: u32) -> Result<Input, Refusal>
    ensures { IfOk result (IsInput scale) }
{
    let mut deck = deck(scale);
    for _ in 0..place {
        let _ = deck.next(alloc)?;
    }
    deck.next(alloc)
}

/// Executes and commits the other terminal's input of this place, at this seat.
pub(crate) fn commit_at<K: Run, R: Wait>(
    rt: &R,
    alloc: Global,
    engine: &Engine<K>,
    seat: Seat<K>,
    place: u32,
) -> Result<Done, Refusal> {
    let mut seat = seat;
    let input = input_at(alloc, engine.population().scale(), place)?;
    commit(rt, alloc, engine, &mut seat, &input)
}
