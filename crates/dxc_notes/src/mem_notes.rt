ghost use Rattle.std.specs.Prelude.{◌≡◌, ◌+◌, ◌⊎◌, ◌++◌, ◌∷◌, [], min};
ghost use Rattle.dxc_causes.specs.Causes.{last};

use crate::{Note, Notes, Standing};

/// Keeps what it is told, and counts what it had no memory for. It tells what it was made with.
#[derive(Drop)]
pub struct MemNotes {
    kept: Vec<Note>,
    dropped: u64,
    standing: Standing,
}

impl MemNotes {
    /// What it is told comes after what `kept` holds.
    pub fn new(kept: Vec<Note>, standing: Standing) -> MemNotes
        ensures kept { result.kept.items ≡ kept.items }
        ensures dropped { result.dropped ≡ 0 }
        ensures standing { result.standing ≡ standing }
    {
        MemNotes {
            kept,
            dropped: 0,
            standing,
        }
    }

    /// What it was told and had memory for.
    pub fn kept(&self) -> &[Note]
        ensures { result.now ≡ self.now.kept.items }
    {
        &self.kept
    }

    /// How many notes were dropped.
    pub fn dropped(&self) -> u64
        ensures { result ≡ self.now.dropped }
    {
        self.dropped
    }
}

impl Notes for MemNotes {
    ghost noted = { λ _ _ _. Unit {0} };

    ghost unnoted = { λ _. tt };

    ghost noted_on = { λ _ _ _. λ _ _. λ _ _. tt };

    fn note(&mut self, note: Note)
        ensures kept { ((self.new.kept.items ≡ self.old.kept.items ++ note ∷ [])
            × (self.new.dropped ≡ self.old.dropped))
            ⊎ ((self.new.kept.items ≡ self.old.kept.items)
            × (self.new.dropped ≡ min (self.old.dropped + 1) last)) }
        ensures standing { self.new.standing ≡ self.old.standing }
    {
        if self.kept.push(note).is_err() {
            self.dropped = self.dropped.saturating_add(1);
        }
    }

    fn standing(&self) -> Standing
        ensures { result ≡ self.now.standing }
    {
        self.standing.again()
    }
}
