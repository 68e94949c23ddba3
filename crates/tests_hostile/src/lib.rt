//! Tests of bytes on disks that no run has written, through `scan` and `recover`.
#![tactic(auto)]

#[cfg(test)]
mod bodies_tests;
#[cfg(test)]
mod files_tests;
#[cfg(test)]
mod stated;
