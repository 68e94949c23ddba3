//! Tests of the crates that everything speaks of, on their public calls: a crate's own tests would prove it again.
#![tactic(auto)]

#[cfg(test)]
mod building_tests;
#[cfg(test)]
mod conditions_tests;
#[cfg(test)]
mod limits_tests;
#[cfg(test)]
mod money_tests;
#[cfg(test)]
mod new_order_tests;
#[cfg(test)]
mod newest_tests;
#[cfg(test)]
mod payment_tests;
#[cfg(test)]
mod population_tests;
#[cfg(test)]
mod reach_tests;
#[cfg(test)]
mod reading_tests;
#[cfg(test)]
mod records_tests;
