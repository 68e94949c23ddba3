//! Tests of crashes: all of one run of threads, at the calls of its disks in memory, over the plain population of one
//! warehouse. A run is noted as it goes: each disk's calls get stamps behind them, and so does each released reply.
#![tactic(auto)]

#[cfg(test)]
mod crash_tests;
#[cfg(test)]
mod images;
#[cfg(test)]
mod judging;
#[cfg(test)]
mod lives;
#[cfg(test)]
mod walking;
