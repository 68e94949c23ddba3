//! Tests of recovery, and of what is told of one, on disks in memory.
#![tactic(auto)]

#[cfg(test)]
mod meeting;
#[cfg(test)]
mod recovering_tests;
#[cfg(test)]
mod telling_tests;
#[cfg(test)]
mod texts_tests;
#[cfg(test)]
mod threads_tests;
#[cfg(test)]
mod void_tests;
