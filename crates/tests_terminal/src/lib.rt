//! Tests of a terminal's inputs, on engines over the plain population of one warehouse.
#![tactic(auto)]

#[cfg(test)]
mod one_tests;
#[cfg(test)]
mod rival;
#[cfg(test)]
mod stage;
