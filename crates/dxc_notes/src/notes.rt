ghost use Rattle.std.specs.Prelude.{◌∷◌, ◌++◌, [], List};
ghost use Rattle.dxc_notes.specs.declared.note.Note.{Note as ANote};

use crate::{Note, Standing};

/// What is told what happens at a place. A note that it can't take changes nothing for whoever tells it: it is dropped and counted. Since it is told
/// at each place what happens there, it also tells what stands of the program.
pub trait Notes {
    /// That it was told these, in this order and nothing else, between the one moment and the other. Nothing but `note` and the two laws
    /// below gives it of notes of any type, so a call that tells what it noted did note it.
    ghost noted: { Self → Self → List ANote → Type 0 };

    ghost unnoted: { (n : Self) → noted n n [] };

    ghost noted_on: { (old between new : Self) (before after : List ANote)
        → noted old between before → noted between new after → noted old new (before ++ after) };

    /// Tells what happened. It doesn't wait for anyone who reads the notes.
    fn note(&mut self, note: Note)
        ensures { noted self.old self.new (note ∷ []) };

    /// What stands of the program. No clause tells of its content, as none does of a moment that an adapter's clock gives.
    fn standing(&self) -> Standing;
}

/// A place of which notes are taken: where callers come in.
pub trait Noted {
    type Notes: Notes + Drop;

    /// What is told what happens there.
    fn notes(&self) -> Self::Notes;
}
