ghost use Rattle.dxc_outside.specs.Fakes.{lines_state};

use crate::link::{Kept, leave};
use dxc_outside::{Frame, Lines, MemLines, Put};
use std::alloc::Global;

/// Lines in memory. Where their worker is at its end they are dropped, and leave what was written to whoever compares it.
pub struct RowLines {
    held: MemLines,
    alloc: Global,
    kept: Kept,
}

impl RowLines {
    pub fn new(alloc: Global, held: MemLines, kept: Kept) -> RowLines {
        RowLines { held, alloc, kept }
    }
}

impl Lines for RowLines {
    ghost told = { Unit {0} };

    ghost state = { λ l. lines_state l.held };

    fn read_frame(&mut self, into: &mut [u8]) -> Frame {
        self.held.read_frame(into)
    }

    fn write_frame(&mut self, from: &[u8]) -> Put {
        self.held.write_frame(from)
    }
}

impl Drop for RowLines {
    fn drop(self) {
        let RowLines { held, alloc, kept } = self;
        leave(&kept, alloc, held.output());
    }
}
