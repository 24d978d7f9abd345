use dxc_outside::MemClock;
use std::alloc::Global;
use worked_common::NOON;

/// A clock that stands.
pub fn standing(alloc: Global) -> MemClock {
    let mut moments = Vec::new(alloc);
    let _ = moments.push(NOON);
    MemClock::new(moments)
}
