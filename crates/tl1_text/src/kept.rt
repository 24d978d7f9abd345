ghost use Rattle.std.specs.Prelude.{◌≡◌, ◌≤◌, ◌<◌, ◌+◌, ◌==◌, [], ◌∷◌, ◌++◌, length};

use std::marker::Model;

/// A unit has at most so many bytes, the `;` that ends it among them.
pub const LIMIT: usize = 2048;

/// The bytes of a unit, as many as its limit.
// In place of an `ArrayVec`, which writes over the bytes that it lets go of.
#[derive(Drop)]
pub struct Kept {
    bytes: [u8; LIMIT],
    len: usize,
}

impl Model for Kept {
    ghost use Rattle.std.specs.Prelude.{◌≡◌, ◌≤◌, ℕ, List, length, take};

    ghost Value = { List ℕ };

    ghost view = { λ k. take k.len k.bytes };

    ghost invariant = { λ k. (k.len ≤ 2048) × (length k.bytes ≡ 2048) };
}

impl Kept {
    pub fn new() -> Kept
        ensures { result ≡ [] }
    {
        Kept {
            bytes: [0; LIMIT],
            len: 0,
        }
    }

    pub fn as_slice(&self) -> &[u8]
        ensures { result.now ≡ self.now }
    {
        &self.bytes[..self.len]
    }

    pub fn len(&self) -> usize
        ensures value { result ≡ length self.now }
        ensures fits { result ≤ 2048 }
    {
        self.len
    }

    pub fn is_empty(&self) -> bool
        ensures { result ≡ (length self.now == 0) }
    {
        self.len == 0
    }

    pub fn clear(&mut self)
        ensures { self.new ≡ [] }
    {
        self.len = 0;
    }

    /// Writes over the bytes that it let go of.
    pub fn wipe(&mut self)
        ensures { self.new ≡ self.old }
    {
        let free = &mut self.bytes[self.len..];
        free.fill(0);
    }

    pub fn push(&mut self, b: u8)
        requires { length self.old < 2048 }
        ensures items { self.new ≡ self.old ++ b ∷ [] }
    {
        self.bytes[self.len] = b;
        self.len += 1;
    }

    pub fn extend(&mut self, text: &[u8])
        requires { length self.old + length text.now ≤ 2048 }
        ensures items { self.new ≡ self.old ++ text.now }
    {
        let end = self.len + text.len();
        self.bytes[self.len..end].copy_from_slice(text);
        self.len = end;
    }
}
