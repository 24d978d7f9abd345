//! A place with passes of two turnstiles: its turns go on as the law of one order asks.
ghost use Rattle.std.specs.Prelude.{◌≡◌, ◌++◌, Bool, List, [], ◌∷◌, ◌⊎◌, map, length, true};
ghost use Rattle.turnstile.specs.Passing.{GoesOn, IsFree};
ghost use Rattle.turnstile.specs.Together.{TookOn};

use crate::{Pass, Sequential, Turnstile};
use std::sync::Wait;

// Enters what leaves the state as it is.
fn enter_one<S: Sequential + Drop, R: Wait>(
    turns: &Turnstile<S>,
    pass: &mut Pass,
    entry: S::Entry,
    rt: &R,
)
    requires pass { IsFree turns.now.id pass.old }
    requires number { S.number entry ≡ pass.old.number }
    requires stands { (x : S) → (h : List S.Entry) → S.stands x h → S.stands x (h ++ entry ∷ []) }
    ensures pass { IsFree turns.now.id pass.new }
    ensures goes { GoesOn pass.old pass.new }
    ensures as_many { length pass.new.stamps ≡ length pass.new.seen }
    ensures seen { (h : List S.Entry) → pass.old.seen ≡ map S.entry_code.code h
        → (es : List S.Entry) × (pass.new.seen ≡ map S.entry_code.code (h ++ es)) }
{
    let turn = turns.enter(pass, rt);
    turns.leave(pass, turn, entry);
}

// Enters at the one and then at the other, each time having heard what was seen of the other one.
fn enter_both<S: Sequential + Drop, T: Sequential + Drop, R: Wait>(
    one: &Turnstile<S>,
    other: &Turnstile<T>,
    pass: &mut Pass,
    other_pass: &mut Pass,
    entry: S::Entry,
    other_entry: T::Entry,
    rt: &R,
)
    requires pass { IsFree one.now.id pass.old }
    requires other_pass { IsFree other.now.id other_pass.old }
    requires number { (S.number entry ≡ pass.old.number) × (T.number other_entry ≡ pass.old.number)
        × (other_pass.old.number ≡ pass.old.number) }
    requires stands { (x : S) → (h : List S.Entry) → S.stands x h → S.stands x (h ++ entry ∷ []) }
    requires other_stands { (x : T) → (h : List T.Entry) → T.stands x h
        → T.stands x (h ++ other_entry ∷ []) }
    ensures took { (used : S.Entry ⊎ T.Entry → Bool) → TookOn S.entry_code.code T.entry_code.code
        used (pass.old, other_pass.old) (pass.new, other_pass.new) }
{
    pass.hear(other_pass);
    enter_one(one, pass, entry, rt);
    other_pass.hear(pass);
    enter_one(other, other_pass, other_entry, rt);
}
