//! The tests of the crates that make the program, on their public calls: a crate's own tests would prove it again.
#![tactic(auto)]

#[cfg(test)]
mod command_lines;
#[cfg(test)]
mod deliveries;
#[cfg(test)]
mod devices;
#[cfg(test)]
mod endings;
#[cfg(test)]
mod lines_tests;
#[cfg(test)]
mod new_orders;
#[cfg(test)]
mod query_scripts;
mod runs;
#[cfg(test)]
mod screens;
#[cfg(test)]
mod scripts;
#[cfg(test)]
mod small_scripts;

/// The report's lines where every condition holds.
#[cfg(test)]
const GOOD: &str =
    "C1 ok\nC2 ok\nC3 ok\nC4 ok\nC5 ok\nC6 ok\nC7 ok\nC8 ok\nC9 ok\nC10 ok\nC12 ok\n";
