//! What names one run of the engine.

use std::marker::Brand;
use std::sync::ledger::Ledger;

/// Names one run: its population with the seed of that, the tables that it began with and how many commits made them,
/// its record cells, its board of epoch words, its annals, and, as a `Ledger`, its terminals' shares.
pub trait Run: Ledger {
    ghost use Rattle.book.specs.Run.{RunView};

    /// All of it but the ledger.
    ghost run: { RunView };
}

/// Only so that there is one: a call at `Brand` names its own.
impl Run for Brand {
    ghost use Rattle.std.specs.Prelude.{[]};
    ghost use Rattle.book.specs.Run.{no_table};
    ghost use Rattle.tables.specs.Sizes.{sizes};
    ghost use Rattle.tables.specs.Database.{empty_database};

    ghost run = { record {
      population = empty_database (sizes 1 1 10 20 10 1);
      seed = 0;
      first = empty_database (sizes 1 1 10 20 10 1);
      past = 0;
      cells = record { narrow = []; wide = [] };
      board = record { table = no_table; plan = record { loggers = 1; base = 0 } };
      annals = record { table = no_table; base = 0 };
    } };
}
