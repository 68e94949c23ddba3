//! What is recorded of a run over disks in memory, while it goes: each call of a disk gets a stamp behind it, and so
//! does each reply that is released.
#![tactic(auto)]

mod desks;
mod notes;
mod opening;
mod recorder;
mod tape;
mod teller;

pub use desks::{Recorded, Ways, recorded, tellers};
pub use notes::{Fact, Notes};
pub use opening::{is_possible, open_logs, slots};
pub use recorder::Recorder;
pub use tape::Tape;
pub use teller::Teller;
