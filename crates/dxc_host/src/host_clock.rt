ghost use Rattle.std.specs.Prelude.{[]};

use crate::shown::Shown;
use dxc_outside::{Clock, Moment};

/// Goes by the clock of the operating system, at UTC. Where that can't be read, it gives 00-01-01 00:00:00.
#[derive(Drop)]
pub struct HostClock {
    shown: Shown,
}

impl HostClock {
    pub fn new() -> HostClock {
        HostClock {
            shown: Shown::of(0),
        }
    }
}

// The second since 1970-01-01 00:00:00, or -1 where the clock can't be read: no second before 2000 is shown as another moment. The
// system's own call, since std's reads more than the second.
fn second() -> i64 {
    libc::time(&mut 0)
}

impl Clock for HostClock {
    ghost told = { ⊥ };

    ghost coming = { λ _. [] };

    fn now(&mut self) -> Moment {
        self.shown.at(second())
    }
}
