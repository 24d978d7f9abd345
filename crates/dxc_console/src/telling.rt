ghost use Rattle.std.specs.Prelude.{◌∷◌, ◌++◌, [], ℕ, IsErr, List};

use std::io;

/// What the program tells of itself goes here.
pub trait Telling {
    /// That it was told these texts, in this order and nothing else, between the one moment and the other. Nothing but `tell` and the laws
    /// below gives this or the next of any type, so a call that says which texts were told did tell them.
    ghost told: { Self → Self → List (List ℕ) → Type 0 };

    /// That a text couldn't be told in between.
    ghost failed: { Self → Self → Type 0 };

    ghost untold: { (t : Self) → told t t [] };

    ghost told_on: { (old between new : Self) (before after : List (List ℕ))
        → told old between before → told between new after → told old new (before ++ after) };

    ghost failed_on: { (old between new : Self) (before : List (List ℕ))
        → told old between before → failed between new → failed old new };

    /// Tells the text, as far as it can be written. An error: not all of it could.
    fn tell(&mut self, text: &str) -> io::Result<()>
        ensures told { told self.old self.new (text.now ∷ []) }
        ensures failed { IsErr result → failed self.old self.new };
}

/// Tells by printing to standard output.
#[derive(Drop)]
pub struct Printing<'a, R> {
    rt: &'a R,
}

impl<'a, R: Print> Printing<'a, R> {
    pub fn new(rt: &'a R) -> Printing<'a, R> {
        Printing { rt }
    }
}

impl<R: Print> Telling for Printing<'_, R> {
    ghost told = { λ _ _ _. Unit {0} };

    ghost failed = { λ _ _. Unit {0} };

    ghost untold = { λ _. tt };

    ghost told_on = { λ _ _ _. λ _ _. λ _ _. tt };

    ghost failed_on = { λ _ _ _. λ _. λ _ _. tt };

    fn tell(&mut self, text: &str) -> io::Result<()> {
        print!(self.rt; "{text}")
    }
}
