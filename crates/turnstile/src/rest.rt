use std::hint::spin_loop;
use std::sync::Wait;
use std::sync::atomic::AtomicU64;
use std::time::Duration;

// So often one looks on before it sleeps.
const LOOKS: u32 = 100;

// So many microseconds a sleep takes.
const SLEEP: u64 = 100;

/// What one looks for that nobody wakes it for, and how often it has looked in vain.
#[derive(Drop)]
pub struct Rest {
    awaited: u64,
    looks: u32,
}

impl Rest {
    pub fn new() -> Rest {
        Rest {
            awaited: 0,
            looks: 0,
        }
    }

    /// To be called after each look that was in vain, with a number of what is awaited. For the first hundred looks for the same it hardly waits, and from
    /// then on it sleeps for a tenth of a millisecond.
    pub fn again<R: Wait>(&mut self, awaited: u64, rt: &R) {
        if self.awaited != awaited {
            self.awaited = awaited;
            self.looks = 0;
        }
        if self.looks < LOOKS {
            self.looks += 1;
            spin_loop();
        } else {
            AtomicU64::new(0).park_timeout(rt, 0, Duration::from_micros(SLEEP));
        }
    }
}
