//! Legs put in, taken out and moved.
ghost use Rattle.std.specs.Prelude.{◌≡◌, ◌≤◌};
ghost use Rattle.paull_matrix.specs.Colourings.{CanPlace, Holds, IsFreeFor, IsHeld, with_leg, without_leg};

use crate::matrix::Matrix;
use dxc_num::{Leg, Middle, Route, Shape};

impl Matrix {
    /// Puts in a leg whose sides are unused, on a middle that is free in its row and column.
    pub fn place(&mut self, leg: Leg, middle: Middle)
        requires { CanPlace self.old leg middle.0 }
        ensures { self.new ≡ with_leg leg middle.0 self.old }
    {
        self.routes[leg.output.0 as usize] = Some(Route {
            input: leg.input,
            middle,
        });
        let row = self.shape.module_of(leg.input);
        self.rows.put(row, middle, leg);
        let column = self.shape.module_of(leg.output);
        self.columns.put(column, middle, leg);
    }

    /// Takes out a leg that is held.
    pub fn remove(&mut self, leg: Leg)
        requires { IsHeld self.old leg }
        ensures { self.new ≡ without_leg leg self.old }
    {
        if let Some(route) = self.routes[leg.output.0 as usize] {
            self.routes[leg.output.0 as usize] = None;
            let row = self.shape.module_of(leg.input);
            self.rows.take(row, route.middle);
            let column = self.shape.module_of(leg.output);
            self.columns.take(column, route.middle);
        }
    }

    /// Moves a leg from the middle on which it is held to one that is free in its row and column.
    #[inline(always)]
    pub fn turn(&mut self, leg: Leg, from: Middle, to: Middle)
        requires held { Holds self.old leg from.0 }
        requires free { (to.0 ≤ self.old.shape.slots) × IsFreeFor self.old leg to.0 }
        ensures { self.new ≡ with_leg leg to.0 self.old }
    {
        self.turn_in(self.shape, leg, from, to);
    }

    /// The same by a caller who has the shape at hand, so that it isn't read again.
    #[inline(always)]
    pub fn turn_in(&mut self, shape: Shape, leg: Leg, from: Middle, to: Middle)
        requires same { shape ≡ self.old.shape }
        requires held { Holds self.old leg from.0 }
        requires free { (to.0 ≤ self.old.shape.slots) × IsFreeFor self.old leg to.0 }
        ensures { self.new ≡ with_leg leg to.0 self.old }
    {
        let row = shape.module_of(leg.input);
        let column = shape.module_of(leg.output);
        self.routes[leg.output.0 as usize] = Some(Route {
            input: leg.input,
            middle: to,
        });
        self.rows.turn(shape, row, from, to, leg);
        self.columns.turn(shape, column, from, to, leg);
    }
}
