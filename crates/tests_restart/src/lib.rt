//! Tests of restarts on log files in memory.
#![tactic(auto)]

#[cfg(test)]
mod failing_tests;
#[cfg(test)]
mod paying_tests;
#[cfg(test)]
mod refused_tests;
#[cfg(test)]
mod restart_tests;
#[cfg(test)]
mod restarting;
