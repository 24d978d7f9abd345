ghost use Rattle.std.specs.Prelude.{◌≡◌, None, Some};

use dxc_num::Leg;
use std::marker::Model;

/// The leg of a cell, or none, in eight bytes: so a cell is found by a shift, and set by two moves.
#[derive(Clone, Copy)]
pub struct Cell {
    taken: u32,
    leg: Leg,
}

impl Model for Cell {
    ghost use Rattle.std.specs.Prelude.{◌≡◌, Option};
    ghost use Rattle.dxc_num.specs.declared.port.Leg.{Leg};
    ghost use Rattle.paull_matrix.specs.CellCodes.{code_of, decoded};

    ghost Value = { Option Leg };

    ghost view = { λ c. decoded (c.taken, c.leg) };

    ghost invariant = { λ c. code_of (decoded (c.taken, c.leg)) ≡ (c.taken, c.leg) };

    ghost inverse = { λ x. record { taken = (code_of x).0; leg = (code_of x).1 } };

    ghost inverse_ok = { λ c h i. record { taken = (h i).0; leg = (h i).1 } };
}

impl Cell {
    /// A cell without a leg.
    #[inline(always)]
    pub fn free() -> Cell
        ensures { result ≡ None }
    {
        Cell {
            taken: 0,
            leg: Leg::default(),
        }
    }

    /// The cell of a leg.
    #[inline(always)]
    pub fn of(leg: Leg) -> Cell
        ensures { result ≡ Some leg }
    {
        Cell { taken: 1, leg }
    }

    /// Its leg.
    #[inline(always)]
    pub fn get(self) -> Option<Leg>
        ensures { result ≡ self }
    {
        if self.taken == 0 {
            None
        } else {
            Some(self.leg)
        }
    }
}
