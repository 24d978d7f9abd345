ghost use Rattle.dxc_outside.specs.Fakes.{link_state};

use dxc_outside::{Got, Link, Lost, MemLink, Put};
use std::alloc::Global;
use std::sync::{Arc, OnceLock};

/// What was written somewhere, once nothing more will be.
pub type Kept = Arc<OnceLock<Vec<u8>>>;

/// Leaves a copy of what was written.
pub fn leave(kept: &Kept, alloc: Global, written: &[u8]) {
    let mut copy = Vec::new(alloc);
    if copy.extend_from_slice(written).is_ok() {
        let _ = kept.try_set(copy);
    }
}

/// A link in memory, a write on which takes at most so many bytes. Where its session is over it is dropped, and leaves what was written to whoever
/// compares it.
pub struct RowLink {
    held: MemLink,
    most: usize,
    alloc: Global,
    kept: Kept,
}

impl RowLink {
    pub fn new(alloc: Global, held: MemLink, most: usize, kept: Kept) -> RowLink {
        RowLink {
            held,
            most,
            alloc,
            kept,
        }
    }
}

impl Link for RowLink {
    ghost told = { ⊥ };

    ghost state = { λ l. link_state l.held };

    ghost begun = { λ _. Unit {0} };

    ghost hung_up = { λ l. l.held.hung_up };

    fn read(&mut self, into: &mut [u8]) -> Got {
        self.held.read(into)
    }

    fn write(&mut self, from: &[u8]) -> Put {
        let count = self.most.max(1).min(from.len());
        self.held.write(&from[..count])
    }

    fn hang_up(&mut self, why: Lost) {
        self.held.hang_up(why);
    }
}

impl Drop for RowLink {
    fn drop(self) {
        let RowLink {
            held,
            most: _,
            alloc,
            kept,
        } = self;
        leave(&kept, alloc, held.output());
    }
}
