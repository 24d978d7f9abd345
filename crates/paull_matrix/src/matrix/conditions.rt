//! The conditions of changes, as tests.
ghost use Rattle.std.specs.Prelude.{◌≡◌, ◌≤◌, ◌↔◌, IsTrue};
ghost use Rattle.dxc_num.specs.declared.port.Leg.{Leg};
ghost use Rattle.dxc_num.specs.Dimensions.{IsInside};
ghost use Rattle.paull_matrix.specs.Colourings.{CanPlace, IsEmpty, IsFreeFor, IsHeld, IsUnused};
ghost use Rattle.paull_matrix.specs.Middles.{IsSetOf};

use crate::matrix::Matrix;
use crate::middle_set::MiddleSet;
use dxc_num::{Leg, Middle};

impl Matrix {
    /// Whether both ends of the leg are ports of the network.
    pub fn is_inside(&self, leg: Leg) -> bool
        ensures { IsTrue result ↔ IsInside self.now.shape leg }
    {
        let ports = self.shape.ports();
        leg.input.0 < ports && leg.output.0 < ports
    }

    /// Whether the leg may be put on the middle.
    pub fn may_place(&self, leg: Leg, middle: Middle) -> bool
        ensures { IsTrue result ↔ CanPlace self.now leg middle.0 }
    {
        if !self.is_inside(leg) || middle.0 as u16 > self.shape.slots() {
            return false;
        }
        if !self.is_unused(leg) {
            return false;
        }
        self.is_free_for(leg, middle)
    }

    /// The middles that are free in the leg's row and in its column, the spare among them where it is free.
    pub fn free_for(&self, leg: Leg) -> MiddleSet
        requires { IsInside self.now.shape leg }
        ensures { IsSetOf (IsFreeFor self.now leg) self.now.shape.slots result }
    {
        let in_row = self.free_in_row(self.shape.module_of(leg.input));
        in_row.common(self.free_in_column(self.shape.module_of(leg.output)))
    }

    /// Whether the middle is free in the leg's row and in its column.
    pub fn is_free_for(&self, leg: Leg, middle: Middle) -> bool
        requires { IsInside self.now.shape leg × (middle.0 ≤ self.now.shape.slots) }
        ensures { IsTrue result ↔ IsFreeFor self.now leg middle.0 }
    {
        let _slots = self.shape.slots();
        self.free_for(leg).contains(middle)
    }

    /// Whether no leg uses a side of this one.
    pub fn is_unused(&self, leg: Leg) -> bool
        requires { IsInside self.now.shape leg }
        ensures { IsTrue result ↔ IsUnused self.now leg }
    {
        self.routes[leg.output.0 as usize].is_none() && !self.has_input(leg)
    }

    /// Whether no leg is on the middle.
    pub fn is_empty(&self, middle: Middle) -> bool
        requires { middle.0 ≤ self.now.shape.slots }
        ensures { IsTrue result ↔ IsEmpty self.now middle.0 }
    {
        for module in 0..self.shape.modules() {
            if self.rows.get(module, middle).is_some() {
                return false;
            }
        }
        true
    }

    // Whether a leg has the input of this one: the row tells.
    fn has_input(&self, leg: Leg) -> bool
        requires { IsInside self.now.shape leg }
        ensures { IsTrue result ↔ ((v : Leg) × IsHeld self.now v × (v.input.0 ≡ leg.input.0)) }
    {
        let module = self.shape.module_of(leg.input);
        for middle in 0..self.shape.slots() + 1 {
            if let Some(other) = self.rows.get(module, Middle(middle as u8)) {
                if other.input == leg.input {
                    return true;
                }
            }
        }
        false
    }
}
