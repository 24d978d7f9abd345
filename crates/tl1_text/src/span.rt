ghost use Rattle.std.specs.Prelude.{◌≡◌, ◌≤◌};

use arrayvec::ArrayVec;

/// The bytes of a unit from `start` up to `end`.
#[derive(Clone, Copy, Default, PartialEq, Eq)]
pub struct Span {
    pub start: u16,
    pub end: u16,
}

impl Span {
    ghost use Rattle.tl1_text.specs.Spans.{IsIn, text_at};

    pub(crate) fn between(start: usize, end: usize) -> Span
        requires start { start ≤ 2047 }
        requires end { end ≤ 2047 }
        ensures { result ≡ record { start = start; end = end } }
    {
        Span {
            start: start as u16,
            end: end as u16,
        }
    }

    /// The text in its unit.
    pub fn text(self, unit: &[u8]) -> &[u8]
        requires { IsIn unit.now self }
        ensures { result.now ≡ text_at unit.now self }
    {
        &unit[self.start as usize..self.end as usize]
    }
}

/// The blocks of a unit: command code, TID, AID block, CTAG, general block, and payload blocks.
#[derive(Drop)]
pub struct Blocks {
    pub block: ArrayVec<Span, 10>,
}

/// The unit isn't in the grammar.
#[derive(Clone, Copy, Debug, PartialEq, Eq)]
pub struct BadText;
