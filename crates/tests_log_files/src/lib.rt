//! Log files of Payments on disks in memory, and what disks recover to: for tests of recovery.
#![tactic(auto)]

mod bytes;
mod files;
mod recovered;

pub use bytes::{
    ENTRY, push_body, push_entry, push_entry_of, push_header, push_header_of, push_numbers,
    push_write,
};
pub use files::{declare, disk_of, disks, first, first_disk, one_disk, second, small, unwatched};
pub use recovered::{Recovery, outcome_of, recovery_of};
