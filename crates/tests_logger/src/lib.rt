//! Tests of `logger` and `terminals`, on engines over the plain population of one warehouse: a crate's own tests would
//! prove it again.
#![tactic(auto)]

#[cfg(test)]
mod desk;
#[cfg(test)]
mod durable_tests;
#[cfg(test)]
mod failing_tests;
#[cfg(test)]
mod stage;
#[cfg(test)]
mod turn_tests;
