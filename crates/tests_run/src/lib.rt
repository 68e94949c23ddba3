//! Tests of `run_threads`, on engines over the plain population of one warehouse: a crate's own tests would prove it
//! again.
#![tactic(auto)]

#[cfg(test)]
mod books;
#[cfg(test)]
mod capped_tests;
#[cfg(test)]
mod deck_tests;
#[cfg(test)]
mod following;
#[cfg(test)]
mod following_tests;
#[cfg(test)]
mod held;
#[cfg(test)]
mod held_tests;
#[cfg(test)]
mod meeting;
#[cfg(test)]
mod noting;
#[cfg(test)]
mod noting_tests;
#[cfg(test)]
mod overtaking;
#[cfg(test)]
mod overtaking_tests;
#[cfg(test)]
mod run_tests;
#[cfg(test)]
mod stage;
