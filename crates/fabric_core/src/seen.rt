ghost use Rattle.std.specs.Prelude.{◌≡◌};
ghost use Rattle.fabric_core.specs.Passing.{seen_of, seen_after};

use crate::row::Row;

/// What the looks at one worker's frame word tell so far.
#[derive(Clone, Copy, PartialEq, Eq, Default)]
pub struct Seen {
    /// The first odd number, or 0.
    pub first: u64,
    /// Whether some look gave an even number, or an odd one other than the first: no frame runs that ran before the looks.
    pub passed: bool,
}

impl Seen {
    /// After no look.
    pub const NOTHING: Seen = Seen {
        first: 0,
        passed: false,
    };

    /// After one look more.
    pub fn after(self, frame: u64) -> Seen
        ensures { result ≡ seen_after self frame }
    {
        let odd = frame % 2 == 1;
        if self.first == 0 {
            Seen {
                first: if odd { frame } else { 0 },
                passed: self.passed || !odd,
            }
        } else {
            Seen {
                first: self.first,
                passed: self.passed || !odd || frame != self.first,
            }
        }
    }

    /// After these looks.
    pub fn of(looks: &Row<u64>) -> Seen
        ensures { result ≡ seen_of looks.now }
    {
        let mut seen = Seen::NOTHING;
        for place in 0..looks.len() {
            seen = seen.after(looks.get(place));
        }
        seen
    }
}
