use crate::error_lines::ErrorLines;
use dxc_notes::{Note, Notes, Standing};

/// Tells standard error what happens at a place, and all places who is logged in there.
#[derive(Drop)]
pub struct DoorNotes {
    place: u64,
    lines: ErrorLines,
}

impl DoorNotes {
    /// Of the place of that number.
    pub(crate) fn new(place: u64, lines: ErrorLines) -> DoorNotes {
        DoorNotes { place, lines }
    }

    fn seat(&self, note: &Note) {
        let Some(hall) = self.lines.hall() else {
            return;
        };
        match note {
            Note::LoggedIn(user, class) => hall.come(self.place, user, *class),
            Note::LoggedOut | Note::Gone(_) => hall.go(self.place),
            Note::Closed | Note::LogInDenied | Note::Asked(_) | Note::UsersAsked(_) => {}
        }
    }
}

impl Notes for DoorNotes {
    ghost noted = { λ _ _ _. Unit {0} };

    ghost unnoted = { λ _. tt };

    ghost noted_on = { λ _ _ _. λ _ _. λ _ _. tt };

    fn note(&mut self, note: Note) {
        self.seat(&note);
        self.lines.tell_at(self.place, &note);
    }

    fn standing(&self) -> Standing {
        self.lines.standing()
    }
}
