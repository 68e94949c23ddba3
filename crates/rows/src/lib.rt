//! The rows that records hold, as types, read from the words of their records and turned into words, exactly: the
//! columns that change of WAREHOUSE, DISTRICT and CUSTOMER, whole rows of ORDER, ORDER-LINE and STOCK, and the numbers
//! that OLDEST and LAST hold.
#![tactic(auto)]

pub mod column;
mod columns;
mod index;
mod order;
mod order_line;
mod reading;
mod row;
mod stock;

pub use columns::{CustomerColumns, DistrictColumns, WarehouseColumns};
pub use index::{Last, Oldest};
pub use row::{Keyed, Present, Row};
