//! Log files on disks: bytes come in so that a crash at any moment leaves them whole or not at all (Silo, section
//! 4.10).
#![tactic(auto)]

mod log_file;
mod refused;
mod reopening;
mod storing;

pub use log_file::LogFile;
pub use refused::Refused;
