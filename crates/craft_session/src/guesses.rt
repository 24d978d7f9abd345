//! How a place slows down who guesses PIDs. No clause tells of it: it changes when an answer comes, and not which.
use std::sync::Wait;
use std::sync::atomic::AtomicU64;
use std::time::Duration;

// So many log-ins in a row may be denied before each further one waits.
const FREE: u8 = 3;

// So many seconds it waits.
const SECONDS: u64 = 1;

/// How many log-ins in a row were denied at a place, in whatever session: who hangs up and calls again goes on where it was.
#[derive(Drop)]
pub struct Guesses {
    denied: u8,
}

impl Guesses {
    pub fn new() -> Guesses {
        Guesses { denied: 0 }
    }

    /// To be called before a log-in is looked at, outside of any turn.
    pub fn rest<R: Wait>(&self, rt: &R) {
        if self.denied >= FREE {
            AtomicU64::new(0).park_timeout(rt, 0, Duration::from_secs(SECONDS));
        }
    }

    /// A log-in had the PID.
    pub fn right(&mut self) {
        self.denied = 0;
    }

    /// A log-in was denied.
    pub fn wrong(&mut self) {
        if self.denied < FREE {
            self.denied += 1;
        }
    }
}
