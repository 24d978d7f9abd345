ghost use Rattle.std.specs.Prelude.{◌≡◌, ◌≤◌, length};

use std::marker::Model;

/// A user's name or a correlation tag, as it was given: at most ten bytes.
#[derive(Clone, Copy)]
pub struct Word {
    bytes: [u8; 10],
    count: u8,
}

impl Model for Word {
    ghost use Rattle.std.specs.Prelude.{List, ℕ, ◌≡◌, ◌≤◌, ◌-◌, ◌++◌, length, replicate, take};
    ghost use Rattle.std.proofs.Common.{ap, ◌∙◌};

    ghost Value = { List ℕ };

    ghost view = { λ w. take w.count w.bytes };

    ghost invariant = { λ w. (w.count ≤ 10) × (length (take w.count w.bytes) ≡ w.count)
        × (take w.count w.bytes ++ replicate (10 - w.count) 0 ≡ w.bytes) };

    ghost inverse = { λ text. record
        { bytes = text ++ replicate (10 - length text) 0; count = length text } };

    ghost inverse_ok = { λ w h i. record {
      bytes = (ap (λ n. take w.count w.bytes ++ replicate (10 - n) 0) h.1 ∙ h.2) i;
      count = h.1 i;
    } };
}

impl Word {
    pub fn of(text: &[u8]) -> Word
        requires short { length text.now ≤ 10 }
        ensures { result ≡ text.now }
    {
        let mut bytes = [0; 10];
        bytes[..text.len()].copy_from_slice(text);
        Word {
            bytes,
            count: text.len() as u8,
        }
    }

    /// The bytes as they were given.
    pub fn bytes(&self) -> &[u8]
        ensures bytes { result.now ≡ self.now }
        ensures short { length result.now ≤ 10 }
    {
        &self.bytes[..self.count as usize]
    }
}
