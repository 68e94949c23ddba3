//! Whether a run may go on from recovered tables: the test, and the laws that lead from log files to what a run that
//! goes on is asked.
#![tactic(auto)]

mod laws;
mod sound;

pub use laws::{
    reached_tables_may_begin, rebuilt_tables_are_well_formed_where_rows_belong,
    rebuilt_tables_become, recovered_commits_are_within_the_cap, replays_are_reached,
    sound_tables_may_begin,
};
pub use sound::is_sound;
