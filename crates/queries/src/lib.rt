//! Order-Status and Stock-Level on record cells (TPC-C 2.6, 2.8): they write nothing, and commit as other transactions
//! do.
#![tactic(auto)]

mod item_set;
mod last_order;
mod level;
mod low_stock;
mod sold_items;
mod status;

pub use level::stock_level;
pub use status::order_status;
