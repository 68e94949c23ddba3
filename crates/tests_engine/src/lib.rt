//! Tests of `cells`, the transactions and `book`, over the plain population of one warehouse.
#![tactic(auto)]

#[cfg(test)]
mod behind_tests;
#[cfg(test)]
mod book_tests;
#[cfg(test)]
mod cells_tests;
#[cfg(test)]
mod customer_data_tests;
#[cfg(test)]
mod deliveries;
#[cfg(test)]
mod delivery_tests;
#[cfg(test)]
mod engine;
#[cfg(test)]
mod epoch_tests;
#[cfg(test)]
mod installs_tests;
#[cfg(test)]
mod lives;
#[cfg(test)]
mod new_order_tests;
#[cfg(test)]
mod new_orders;
#[cfg(test)]
mod pairs;
#[cfg(test)]
mod payment_tests;
#[cfg(test)]
mod payments;
#[cfg(test)]
mod query_inputs;
#[cfg(test)]
mod query_tests;
#[cfg(test)]
mod stage;
#[cfg(test)]
mod streams_tests;
#[cfg(test)]
mod told;
#[cfg(test)]
mod totals_tests;
