//! The folder of files.

use crate::opened::opened;
use std::fs::{File, OpenOptions};
use std::io;
use std::rt::Files;

/// Makes the names of a folder's files durable, of those that were made and of those that were taken away: a file whose
/// name a crash takes is gone, whatever was synced in it. No contract says anything of names.
///
/// # Errors
///
/// The system's, where it can't open the folder or sync it.
pub fn sync_folder<R: Files<File = File>>(files: &R, path: &str) -> io::Result<()> {
    let mut options = OpenOptions::new();
    options.read(true);
    opened(&options, files, path)?.sync_all()
}
