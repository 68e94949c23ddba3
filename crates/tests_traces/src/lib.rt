//! Tests of traces: runs of threads are recorded, and the checker is given each as a list of steps.
#![tactic(auto)]

#[cfg(test)]
mod batches;
#[cfg(test)]
mod crashing;
#[cfg(test)]
mod lives;
#[cfg(test)]
mod order;
#[cfg(test)]
mod record;
#[cfg(test)]
mod sights;
#[cfg(test)]
mod trace_tests;
