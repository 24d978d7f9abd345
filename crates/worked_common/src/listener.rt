ghost use Rattle.std.specs.Prelude.{[], false};

use crate::link::{Kept, RowLink};
use crate::notes::RowNotes;
use dxc_notes::Noted;
use dxc_outside::{Came, Listener};
use std::alloc::Global;
use std::sync::{Arc, Wait};

/// Gives its links, the last one first, and then says End. Accepts are numbered from 0; those of the numbers in `failing` fail, and the link that
/// would have come is given later.
#[derive(Drop)]
pub struct RowListener {
    alloc: Global,
    links: Vec<RowLink>,
    failing: Vec<u64>,
    /// Where its notes are left, if they are compared.
    kept: Option<Kept>,
    accepts: u64,
    ended: bool,
    faults: u64,
}

impl RowListener {
    pub fn new(
        alloc: Global,
        links: Vec<RowLink>,
        failing: Vec<u64>,
        kept: Option<Kept>,
    ) -> RowListener {
        RowListener {
            alloc,
            links,
            failing,
            kept,
            accepts: 0,
            ended: false,
            faults: 0,
        }
    }
}

impl Listener for RowListener {
    type Link = RowLink;

    ghost told = { ⊥ };

    ghost state = { λ l. record
        { coming = []; ended = l.ended; faults = l.faults; sound = false } };

    fn accept<R: Wait>(&mut self, _rt: &R) -> Came<RowLink> {
        let fails = self.failing.contains(&self.accepts);
        self.accepts = self.accepts.saturating_add(1);
        if fails {
            self.faults = self.faults.saturating_add(1);
            return Came::Failed;
        }
        match self.links.pop() {
            Some(link) => Came::Link(link),
            None => {
                self.ended = true;
                Came::End
            }
        }
    }
}

impl Noted for RowListener {
    type Notes = RowNotes;

    fn notes(&self) -> RowNotes {
        let kept = match &self.kept {
            Some(kept) => Arc::try_clone(kept).ok(),
            None => None,
        };
        RowNotes::new(self.alloc, kept)
    }
}
