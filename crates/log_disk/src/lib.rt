//! A disk as a log sees it: its calls, and what a crash may leave (Silo, section 4.10). One in memory, which is as the
//! model says, and one in a file, of whose bytes no contract says anything.
#![tactic(auto)]

mod disk;
mod failing;
mod file;
mod folder;
mod memory;
mod memory_call;
mod opened;

pub use disk::Disk;
pub use file::FileDisk;
pub use folder::sync_folder;
pub use memory::Memory;
pub use memory_call::MemoryCall;
