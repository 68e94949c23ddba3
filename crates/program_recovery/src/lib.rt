//! What the log files of a database recover to, told: its rows, or the report of the consistency conditions.
#![tactic(auto)]

mod damage;
mod far;
mod gap;
mod telling;
mod text;
mod watching;

pub use damage::{AskedVersion, Damage, first_damage};
pub use far::{Beyond, CustomerColumn, FarColumn, StockColumn, beyond_reach};
pub use gap::{Misnumbered, first_gap};
pub use telling::{checked, recovered};
pub use watching::{Manner, while_shown};
