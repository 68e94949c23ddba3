//! Tests of TIDs, of the commit machine, of the board and of annals, on public calls: a crate's own tests would prove it again.
#![tactic(auto)]

#[cfg(test)]
mod annals_tests;
#[cfg(test)]
mod board_tests;
#[cfg(test)]
mod machine_tests;
#[cfg(test)]
mod tid_tests;
