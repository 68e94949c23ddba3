//! Whether what was recorded of a run is a list of the crash world's events, each of which may happen where it does.
#![tactic(auto)]

mod accepting;
mod calls;
mod first;
mod follower;
mod lane;
mod laws;
mod step;
mod text;
mod trace;

pub use accepting::accepts;
pub use first::accepts_first_life;
pub use laws::{
    each_beginning_is_a_list_of_events, each_moment_is_as_recorded, each_moment_is_recovered,
};
pub use step::{Start, Step};
pub use trace::Trace;
