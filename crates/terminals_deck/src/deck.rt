//! A terminal's deck.

use crate::drawing::Drawing;
use crate::drawn::Drawn;
use crate::settings::Settings;
use money::Refusal;
use std::alloc::Global;
use std::marker::Model;
use tables::limits::MAX_DATE;
use tables::{Input, Scale};

/// The inputs of a terminal, one after another, drawn from a seed. The terminal's number names the stream of the draws
/// and the home warehouse, of which every input is. Contracts see the scale, the home warehouse, and the next input,
/// which is drawn already, with its date.
#[derive(Drop)]
pub struct Deck {
    drawing: Drawing,
    date: u32,
    next: Drawn,
}

impl Model for Deck {
    ghost use Rattle.std.specs.Prelude.{◌≤◌};
    ghost use Rattle.tables.specs.Sizes.{IsBetween};
    ghost use Rattle.tables.specs.declared.limits.TheConstants.{MAX_DATE};
    ghost use Rattle.terminals_deck.specs.Drawn.{input_of, IsDrawn};
    ghost use Rattle.terminals_deck.specs.Deck.{DeckView};

    ghost Value = { DeckView };

    ghost view = { λ d. record {
      scale = d.drawing.scale;
      home = d.drawing.home;
      date = d.date;
      next = input_of d.next;
    } };

    ghost invariant = { λ d. IsBetween 1 MAX_DATE d.date × IsDrawn d.drawing.scale d.drawing.home d.date d.next };
}

impl Deck {
    ghost use Rattle.std.specs.Prelude.{◌≡◌, ◌+◌, min, IfOk, IfErr};
    ghost use Rattle.money.specs.declared.refusal.Refusal.TheVariants.{OutOfMemory};
    ghost use Rattle.tables.specs.Inputs.{IsInput};
    ghost use Rattle.tables.specs.declared.limits.TheConstants.{MAX_DATE};
    ghost use Rattle.terminals_deck.specs.Deck.{home_warehouse, IsAskedAt};

    /// The deck of a terminal, of which the first input is drawn. Its home warehouse is the remainder of the terminal's
    /// number by that of warehouses, plus 1. Takes no memory.
    pub fn new(scale: Scale, settings: Settings, seed: u64, terminal: u32) -> Deck
        ensures scale { result.scale ≡ scale }
        ensures home { result.home ≡ home_warehouse scale terminal }
        ensures date { result.date ≡ 1 }
    {
        let mut drawing = Drawing::new(scale, settings, seed, terminal);
        let next = drawing.draw(1);
        Deck {
            drawing,
            date: 1,
            next,
        }
    }

    /// The next input, and draws the one behind it. Its date is 1 for the first, and rises by 1 from input to input up
    /// to 4,000,000,000. After a refusal, too, the deck stands behind that input.
    ///
    /// # Errors
    ///
    /// `OutOfMemory`, and no other.
    pub fn next(&mut self, alloc: Global) -> Result<Input, Refusal>
        ensures next { IfOk result (λ input. input ≡ self.old.next) }
        ensures valid { IsInput self.old.scale self.old.next }
        ensures asked { IsAskedAt self.old.home self.old.date self.old.next }
        ensures only_memory { IfErr result (λ refusal. refusal ≡ OutOfMemory) }
        ensures scale { self.new.scale ≡ self.old.scale }
        ensures home { self.new.home ≡ self.old.home }
        ensures date { self.new.date ≡ min (self.old.date + 1) MAX_DATE }
    {
        let input = self.next.into_input(alloc);
        self.date = (self.date + 1).min(MAX_DATE);
        self.next = self.drawing.draw(self.date);
        Ok(input?)
    }
}
