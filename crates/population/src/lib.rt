//! The populations that a database begins with (TPC-C 4.3.3).
#![tactic(auto)]

mod credits;
mod name_index;
mod population;
mod prices;
mod rates;

pub use population::Population;
pub use population_draws::nurand;
