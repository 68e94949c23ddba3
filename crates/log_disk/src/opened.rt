//! Opening a file.

use std::fs::{File, OpenOptions};
use std::io;
use std::os::fd::AsRawFd;
use std::rt::Files;

/// The descriptors of standard input, output and error are below this.
const FIRST_FREE: i32 = 3;

/// The file that these options open at a path, with a descriptor of no standard stream: where one of those is closed,
/// the system gives its descriptor to the next file, and what is written to the stream would stand in that.
pub(crate) fn opened<R: Files<File = File>>(
    options: &OpenOptions,
    files: &R,
    path: &str,
) -> io::Result<File> {
    let file = options.open(files, path)?;
    if file.as_raw_fd() < FIRST_FREE {
        // The clone's is the least free one from 3 on.
        return file.try_clone();
    }
    Ok(file)
}
