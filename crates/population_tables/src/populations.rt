//! The two populations.

ghost use Rattle.std.specs.Prelude.{◌≡◌, ◌≤◌, IfOk};
ghost use Rattle.tables.specs.Conditions.{IsConsistent};
ghost use Rattle.tables.specs.Database.{database};
ghost use Rattle.tables.specs.WellFormed.{IsWellFormed, HasRoom};
ghost use Rattle.tables.specs.Reach.{IsInReach};
ghost use Rattle.tables.specs.declared.limits.TheConstants.{MAX_COMMITS};
ghost use Rattle.population_tables.specs.Plain.{IsPlain};
ghost use Rattle.population_tables.specs.First.{IsSeeded};

use crate::build::first_tables;
use crate::plain::Plain;
use crate::seeded::Seeded;
use std::alloc::{AllocError, Global};
use tables::{Scale, Tables};

/// The tables of the plain population of a scale, in which no column is drawn.
pub fn plain_tables(alloc: Global, scale: Scale) -> Result<Tables, AllocError>
    ensures rows { IfOk result (λ tables. IsPlain scale (database tables)) }
    ensures well_formed { IfOk result (λ tables. IsWellFormed (database tables)) }
    ensures consistent { IfOk result (λ tables. IsConsistent (database tables)) }
    ensures room { IfOk result (λ tables. HasRoom MAX_COMMITS (database tables)) }
    ensures reach { IfOk result (λ tables. IsInReach 0 (database tables)) }
{
    let tables = first_tables(alloc, scale, &mut Plain)?;
    Ok(tables)
}

/// The tables of the population that is drawn from a seed: the same for the same seed and scale.
pub fn seeded_tables(alloc: Global, scale: Scale, seed: u64) -> Result<Tables, AllocError>
    ensures rows { IfOk result (λ tables. IsSeeded scale (database tables)) }
    ensures well_formed { IfOk result (λ tables. IsWellFormed (database tables)) }
    ensures consistent { IfOk result (λ tables. IsConsistent (database tables)) }
    ensures room { IfOk result (λ tables. HasRoom MAX_COMMITS (database tables)) }
    ensures reach { IfOk result (λ tables. IsInReach 0 (database tables)) }
{
    let mut source = Seeded::new(seed);
    let tables = first_tables(alloc, scale, &mut source)?;
    Ok(tables)
}
