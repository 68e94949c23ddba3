//! The commit protocol as a machine (Silo, section 4.4): records, workers, an epoch, and what may happen next. Its
//! theorem is about every list of events: what the workers decide is serial in the order of their epoch reads.
#![tactic(auto)]

mod event;
mod notes;
mod sections;
mod state;
mod theorem;
mod tid;
mod value;
mod worker;

pub use event::Event;
pub use sections::{every_section_is_a_run, others_may_act_between};
pub use state::State;
pub use theorem::every_interleaving;
pub use value::Value;
