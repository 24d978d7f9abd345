ghost use Rattle.std.specs.Prelude.{[], false};

use crate::link::CueLink;
use dxc_notes::{MemNotes, Noted, Standby};
use dxc_outside::{Came, Listener};
use std::alloc::Global;
use std::sync::Wait;
use worked_common::standing_with;

/// Where one session's caller comes in, and nobody else.
#[derive(Drop)]
pub struct OneCaller {
    alloc: Global,
    caller: Option<CueLink>,
    ended: bool,
}

impl OneCaller {
    /// Nobody calls where there is no caller.
    pub fn new(alloc: Global, caller: Option<CueLink>) -> OneCaller {
        OneCaller {
            alloc,
            caller,
            ended: false,
        }
    }
}

impl Listener for OneCaller {
    type Link = CueLink;

    ghost told = { ⊥ };

    ghost state = { λ l. record { coming = []; ended = l.ended; faults = 0; sound = false } };

    fn accept<R: Wait>(&mut self, _rt: &R) -> Came<CueLink> {
        match self.caller.take() {
            Some(link) => Came::Link(link),
            None => {
                self.ended = true;
                Came::End
            }
        }
    }
}

impl Noted for OneCaller {
    type Notes = MemNotes;

    /// Nobody reads them.
    fn notes(&self) -> MemNotes {
        MemNotes::new(Vec::new(self.alloc), standing_with(Standby::Joined))
    }
}
