ghost use Rattle.std.specs.Prelude.{◌≡◌, ◌≢◌, ◌+◌, ◌≤◌, ◌<◌, ◌^◌, ◌↔◌, ℕ, IsTrue, IsBitSet};
ghost use Rattle.paull_matrix.specs.Middles.{FindsLowest};

use dxc_num::Middle;
use std::marker::Model;

/// A set of middles below 128.
#[derive(Clone, Copy, PartialEq, Eq)]
pub struct MiddleSet {
    bits: u128,
}

impl Model for MiddleSet {
    ghost Value = { ℕ };

    ghost view = { λ s. s.bits };

    ghost invariant = { λ s. s.bits < 2 ^ 128 };

    ghost inverse = { λ n. record { bits = n } };
}

impl MiddleSet {
    /// The middles of a word, and from 64 on those of another one.
    #[inline(always)]
    pub fn of_words(low: u64, high: u64) -> MiddleSet
        ensures low { (k : ℕ) → k < 64 → (IsBitSet result k ↔ IsBitSet low k) }
        ensures high { (k : ℕ) → k < 64 → (IsBitSet result (64 + k) ↔ IsBitSet high k) }
    {
        MiddleSet {
            bits: ((high as u128) << 64) | low as u128,
        }
    }

    pub fn contains(self, middle: Middle) -> bool
        requires { middle.0 < 128 }
        ensures { IsTrue result ↔ IsBitSet self middle.0 }
    {
        self.bits & (1u128 << middle.0) != 0
    }

    /// The set without this middle.
    pub fn without(self, middle: Middle) -> MiddleSet
        requires { middle.0 < 128 }
        ensures gone { ¬ IsBitSet result middle.0 }
        ensures others { (k : ℕ) → k < 128 → k ≢ middle.0 → (IsBitSet result k ↔ IsBitSet self k) }
    {
        MiddleSet {
            bits: self.bits & !(1u128 << middle.0),
        }
    }

    /// The middles that are in both sets.
    pub fn common(self, other: MiddleSet) -> MiddleSet
        ensures { (k : ℕ) → IsBitSet result k ↔ (IsBitSet self k × IsBitSet other k) }
    {
        MiddleSet {
            bits: self.bits & other.bits,
        }
    }

    /// The lowest middle of the set among those below `slots`. None exactly where there is none.
    pub fn lowest(self, slots: u16) -> Option<Middle>
        requires { slots ≤ 128 }
        ensures { FindsLowest (IsBitSet self) slots result }
    {
        let middle = self.bits.trailing_zeros();
        if middle < slots as u32 {
            return Some(Middle(middle as u8));
        }
        None
    }
}
