ghost use Rattle.std.specs.Prelude.{◌≡◌, ◌≤◌, length, nat_lt, if◌then◌else◌, Some, None};

use std::marker::Model;

/// A user's name as a text of at most ten bytes.
#[derive(Clone, Copy, PartialEq, Eq)]
pub struct Uid {
    bytes: [u8; 10],
    count: u8,
}

impl Model for Uid {
    ghost use Rattle.std.specs.Prelude.{List, ℕ, ◌≡◌, ◌≤◌, ◌-◌, ◌++◌, length, replicate, take};
    ghost use Rattle.std.proofs.Common.{ap, ◌∙◌};

    ghost Value = { List ℕ };

    ghost view = { λ u. take u.count u.bytes };

    ghost invariant = { λ u. (u.count ≤ 10) × (length (take u.count u.bytes) ≡ u.count)
        × (take u.count u.bytes ++ replicate (10 - u.count) 0 ≡ u.bytes) };

    ghost inverse = { λ text. record
        { bytes = text ++ replicate (10 - length text) 0; count = length text } };

    ghost inverse_ok = { λ u h i. record {
      bytes = (ap (λ n. take u.count u.bytes ++ replicate (10 - n) 0) h.1 ∙ h.2) i;
      count = h.1 i;
    } };
}

impl Uid {
    /// The most bytes of a name.
    pub const MOST: usize = 10;

    /// None exactly where the text is longer.
    pub fn of(text: &[u8]) -> Option<Uid>
        ensures { result ≡ (if nat_lt 10 (length text.now) then None else Some text.now) }
    {
        if text.len() > Self::MOST {
            return None;
        }
        let mut bytes = [0; 10];
        bytes[..text.len()].copy_from_slice(text);
        Some(Uid {
            bytes,
            count: text.len() as u8,
        })
    }

    /// The bytes as they were written.
    pub fn bytes(&self) -> &[u8]
        ensures bytes { result.now ≡ self.now }
        ensures short { length result.now ≤ 10 }
    {
        &self.bytes[..self.count as usize]
    }
}

impl Default for Uid {
    ghost use Rattle.std.specs.Prelude.{◌≡◌, []};

    ghost is_default = { λ u. u ≡ [] };

    fn default() -> Self {
        Uid {
            bytes: [0; 10],
            count: 0,
        }
    }
}
