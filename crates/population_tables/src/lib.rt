//! The tables that a database begins with (TPC-C 4.3.3), plain and seeded: their rows, and that these are well-formed,
//! consistent and have room.
#![tactic(auto)]

ghost use Rattle.std.specs.Prelude.{◌≡◌};
ghost use Rattle.tables.specs.Database.{Database};
ghost use Rattle.tables.specs.Sizes.{Sizes};
ghost use Rattle.population_tables.specs.Plain.{IsPlain};

mod build;
mod district;
mod plain;
mod populations;
mod seeded;
mod source;

pub use populations::{plain_tables, seeded_tables};

/// There is one plain population of a scale: `IsPlain` says all of its tables. It does nothing: its contract is the
/// law.
pub fn plain_tables_are_one()
    ensures { (s : Sizes) (t u : Database) → IsPlain s t → IsPlain s u → t ≡ u }
{}
