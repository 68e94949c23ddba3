//! Tests of the cells, narrow and wide: by two threads at records, neighbours and a page's border, and by one.
#![tactic(auto)]

#[cfg(test)]
mod page_tests;
#[cfg(test)]
mod wide_tests;
