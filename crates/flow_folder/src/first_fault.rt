// What the system said of the first call that failed.
use std::io;
use std::sync::atomic::{AtomicU64, Ordering};

/// The number of no error of the system.
const NONE: u64 = 0;

/// The system's error of the first call on a folder that failed, where it gave one: that there is no space, no right or
/// no device. Disks and their frozen files note it, by whichever threads, and no clause speaks of it.
#[derive(Drop)]
pub struct FirstFault {
    number: AtomicU64,
}

impl FirstFault {
    /// Of no call.
    pub fn new() -> FirstFault {
        FirstFault {
            number: AtomicU64::new(NONE),
        }
    }

    /// Notes the error of a call that failed, where it is the first one.
    pub fn note(&self, error: &io::Error) {
        if let Some(code) = error.raw_os_error() {
            if let Ok(number) = u64::try_from(code) {
                let _ = self
                    .number
                    .compare_exchange(NONE, number, Ordering::SeqCst, Ordering::SeqCst);
            }
        }
    }

    /// What was noted.
    pub fn said(&self) -> Option<io::Error> {
        match i32::try_from(self.number.load(Ordering::SeqCst)) {
            Ok(0) | Err(_) => None,
            Ok(code) => Some(io::Error::from_raw_os_error(code)),
        }
    }
}
