//! Telling that a call on a log file's disk has failed.

use std::alloc::{AllocError, Global};
use std::io::Error;
use std::sync::atomic::{AtomicI64, Ordering};

/// No call has failed.
const QUIET: i64 = -1;

/// A call has failed, for a reason that isn't the system's.
const UNKNOWN: i64 = 0;

/// Whether a call on a log file's disk has failed that wasn't told yet, and why: its logger raises it, and a screen
/// takes it. Threads share it.
#[derive(Drop)]
pub struct Alarm {
    /// `QUIET`, `UNKNOWN`, or the system's number of the error.
    code: AtomicI64,
}

impl Alarm {
    /// One that is quiet.
    fn new() -> Alarm {
        Alarm {
            code: AtomicI64::new(QUIET),
        }
    }

    /// One for each of so many loggers.
    pub fn for_loggers(alloc: Global, loggers: usize) -> Result<Vec<Alarm>, AllocError> {
        let mut alarms = Vec::new(alloc);
        for _ in 0..loggers {
            alarms.push(Alarm::new())?;
        }
        Ok(alarms)
    }

    /// A call has failed, with this error, where it is known.
    pub fn raise(&self, error: Option<Error>) {
        let code = error.and_then(|error| error.raw_os_error()).unwrap_or(0);
        self.code.store(i64::from(code.max(0)), Ordering::SeqCst);
    }

    /// Whether a call has failed since this was last asked, and with which error of the system, if it was one.
    pub(crate) fn take(&self) -> Option<Option<Error>> {
        match self.code.swap(QUIET, Ordering::SeqCst) {
            QUIET => None,
            UNKNOWN => Some(None),
            code => Some(i32::try_from(code).ok().map(Error::from_raw_os_error)),
        }
    }
}
