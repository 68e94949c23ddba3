//! The population that options ask for.
ghost use Rattle.std.specs.Prelude.{◌≡◌, IfOk, IfErr};
ghost use Rattle.money.specs.declared.refusal.Refusal.TheVariants.{OutOfMemory};
ghost use Rattle.population.specs.Initial.{initial, seed_of};
ghost use Rattle.program_live.specs.Population.{IsPopulation};

use money::Refusal;
use population::Population;
use std::alloc::Global;
use tables::Scale;

/// The population of this number: the plain one for 0, else the one that is drawn from it.
pub fn population_of(alloc: Global, scale: Scale, number: u64) -> Result<Population, Refusal>
    ensures rows { IfOk result (λ population. IsPopulation number scale (initial population)) }
    ensures scale { IfOk result (λ population. (initial population).scale ≡ scale) }
    ensures seed { IfOk result (λ population. seed_of population ≡ number) }
    ensures only_memory { IfErr result (λ refusal. refusal ≡ OutOfMemory) }
{
    if number == 0 {
        Population::plain(alloc, scale)
    } else {
        Population::seeded(alloc, scale, number)
    }
}
