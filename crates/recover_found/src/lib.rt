//! What counts in the log files of a database, and what tables it makes (Silo, section 4.10).
#![tactic(auto)]

mod durable;
mod keeps;
mod spans;

pub use durable::durable_of;
pub use keeps::Keeps;
pub use spans::Span;
