//! Tests of read sets, write sets and lists of writes, over two narrow records and two wide ones behind them.
#![tactic(auto)]

#[cfg(test)]
mod read_tests;
#[cfg(test)]
mod stage;
#[cfg(test)]
mod write_tests;
