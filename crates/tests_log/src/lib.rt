//! Tests of numbers as bytes, of disks and of log files, on public calls: a crate's own tests would prove it
//! again.
#![tactic(auto)]

#[cfg(test)]
mod body_tests;
#[cfg(test)]
mod disk_tests;
#[cfg(test)]
mod file_tests;
#[cfg(test)]
mod front_tests;
#[cfg(test)]
mod header_tests;
#[cfg(test)]
mod number_tests;
#[cfg(test)]
mod opened_tests;
#[cfg(test)]
mod scan_tests;
#[cfg(test)]
mod text_tests;
#[cfg(test)]
mod void_tests;
