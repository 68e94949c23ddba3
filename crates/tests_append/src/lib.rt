//! Tests of log files that are appended to, on public calls.
#![tactic(auto)]

#[cfg(test)]
mod append_tests;
#[cfg(test)]
mod failing_tests;
#[cfg(test)]
mod stopped_tests;
