use crate::link::{Kept, leave};
use crate::part::Part;
use crate::standing::standing_with;
use anyhow::Result;
use dxc_notes::{MemNotes, Note, Notes, Standby, Standing};
use std::alloc::Global;

/// What is noted of a place. Where its sessions are over it is dropped, and leaves its notes to whoever compares them, if anybody does.
pub struct RowNotes {
    held: MemNotes,
    alloc: Global,
    kept: Option<Kept>,
}

impl RowNotes {
    pub(crate) fn new(alloc: Global, kept: Option<Kept>) -> RowNotes {
        RowNotes {
            held: MemNotes::new(Vec::new(alloc), standing_with(Standby::Lost)),
            alloc,
            kept,
        }
    }
}

impl Notes for RowNotes {
    ghost noted = { λ _ _ _. Unit {0} };

    ghost unnoted = { λ _. tt };

    ghost noted_on = { λ _ _ _. λ _ _. λ _ _. tt };

    fn note(&mut self, note: Note) {
        self.held.note(note);
    }

    fn standing(&self) -> Standing {
        self.held.standing()
    }
}

impl Drop for RowNotes {
    fn drop(self) {
        let RowNotes { held, alloc, kept } = self;
        if let Some(kept) = &kept {
            leave_lines(kept, alloc, held.kept());
        }
    }
}

// A line for each.
fn leave_lines(kept: &Kept, alloc: Global, notes: &[Note]) {
    let mut lines = Vec::new(alloc);
    for note in notes {
        if let Ok(line) = format!(in alloc; "{note}\n") {
            let _ = lines.extend_from_slice(line.as_bytes());
        }
    }
    leave(kept, alloc, &lines);
}

/// The notes that the lines of a place want, a line for each; None where they want none.
pub(crate) fn wanted_notes(alloc: Global, place: Part<'_, '_>) -> Result<Option<Vec<u8>>> {
    let mut wanted = Vec::new(alloc);
    for line in place.lines {
        if line.word == "note" {
            wanted.extend_from_slice(line.rest.as_bytes())?;
            wanted.push(b'\n')?;
        }
    }
    Ok(if wanted.is_empty() {
        None
    } else {
        Some(wanted)
    })
}
