ghost use Rattle.std.specs.Prelude.{◌≡◌, ◌≤◌, MatchOption};

use std::marker::Model;

/// How many workers carry frames: 1 to 8.
#[derive(Clone, Copy)]
pub struct Workers {
    number: u16,
}

impl Model for Workers {
    ghost use Rattle.std.specs.Prelude.{ℕ};
    ghost use Rattle.dxc_args.specs.Counts.{AreFew};

    ghost Value = { ℕ };

    ghost view = { λ w. w.number };

    ghost invariant = { λ w. AreFew w.number };

    ghost inverse = { λ n. record { number = n } };
}

impl Workers {
    ghost use Rattle.dxc_args.specs.Counts.{AreFew};

    /// None exactly where there are none, or more than 8.
    pub fn new(number: u64) -> Option<Workers>
        ensures { MatchOption result (¬ AreFew number) (λ w. (w ≡ number) × AreFew w) }
    {
        if number < 1 || 8 < number {
            return None;
        }
        Some(Workers {
            number: number as u16,
        })
    }

    pub fn number(self) -> u16
        ensures value { result ≡ self }
        ensures few { AreFew result }
    {
        self.number
    }
}
