ghost use Rattle.std.specs.Prelude.{◌≡◌, ◌≤◌, ◌<◌, ℕ, IfOk, MatchOption};
ghost use Rattle.dxc_num.specs.Dimensions.{IsInLimits, IsInside};
ghost use Rattle.paull_matrix.specs.declared.side.Side.TheVariants.{Row, Column};
ghost use Rattle.paull_matrix.specs.Colourings.{Colouring, Holds, IsFree, IsOn, IsProperColouring, no_legs};
ghost use Rattle.paull_matrix.specs.Middles.{IsSetOf};
ghost use Rattle.paull_matrix.specs.Indexes.{IsMatrix};

use crate::index::Index;
use crate::middle_set::MiddleSet;
use dxc_causes::NoMemory;
use dxc_num::{Leg, Middle, Route, Shape};
use std::alloc::Global;
use std::marker::Model;

mod changes;
mod conditions;

/// A colouring of a network's legs by middles. No middle stands twice in a row, and none twice in a column.
///
/// Only `new` takes memory.
#[derive(Drop)]
pub struct Matrix {
    shape: Shape,
    routes: Vec<Option<Route>>,
    rows: Index,
    columns: Index,
}

impl Model for Matrix {
    ghost Value = { Colouring };

    ghost view = { λ m. record { shape = m.shape; routes = m.routes.items } };

    ghost invariant = { λ m. IsMatrix m.shape m.routes.items m.rows m.columns };
}

impl Matrix {
    /// A matrix with no legs.
    pub fn new(alloc: Global, shape: Shape) -> Result<Matrix, NoMemory>
        ensures { IfOk result (λ m. m ≡ no_legs shape) }
    {
        let routes = Vec::from_elem(alloc, None, shape.ports() as usize)?;
        let rows = Index::new(alloc, shape)?;
        let columns = Index::new(alloc, shape)?;
        Ok(Matrix {
            shape,
            routes,
            rows,
            columns,
        })
    }

    /// Takes out every leg.
    pub fn clear(&mut self)
        ensures { self.new ≡ no_legs self.old.shape }
    {
        self.routes.as_mut_slice().fill(None);
        self.rows.clear();
        self.columns.clear();
    }

    pub fn shape(&self) -> Shape
        ensures value { result ≡ self.now.shape }
        ensures limits { IsInLimits self.now.shape }
        ensures proper { IsProperColouring self.now }
    {
        let _slots = self.shape.slots();
        self.shape
    }

    /// What each output port is connected to: the input of its leg, and its middle.
    pub fn routes(&self) -> &[Option<Route>]
        ensures { result.now ≡ self.now.routes }
    {
        &self.routes
    }

    /// The middle of a leg. None exactly where the leg isn't held.
    pub fn middle_of(&self, leg: Leg) -> Option<Middle>
        requires { IsInside self.now.shape leg }
        ensures { MatchOption result ((k : ℕ) → ¬ Holds self.now leg k)
            (λ k. Holds self.now leg k.0) }
    {
        let route = self.routes[leg.output.0 as usize]?;
        if route.input == leg.input {
            Some(route.middle)
        } else {
            None
        }
    }

    /// The leg of an input module on a middle. None exactly where the middle is free there.
    pub fn in_row(&self, module: u16, middle: Middle) -> Option<Leg>
        requires { («module» < self.now.shape.modules) × (middle.0 ≤ self.now.shape.slots) }
        ensures { MatchOption result (IsFree self.now Row «module» middle.0)
            (IsOn self.now Row «module» middle.0) }
    {
        self.rows.get(module, middle)
    }

    /// The leg of an output module on a middle. None exactly where the middle is free there.
    pub fn in_column(&self, module: u16, middle: Middle) -> Option<Leg>
        requires { («module» < self.now.shape.modules) × (middle.0 ≤ self.now.shape.slots) }
        ensures { MatchOption result (IsFree self.now Column «module» middle.0)
            (IsOn self.now Column «module» middle.0) }
    {
        self.columns.get(module, middle)
    }

    /// The middles that are free in an input module, the spare among them where it is free.
    pub fn free_in_row(&self, module: u16) -> MiddleSet
        requires { «module» < self.now.shape.modules }
        ensures { IsSetOf (IsFree self.now Row «module») self.now.shape.slots result }
    {
        self.rows.free(module)
    }

    /// The middles that are free in an output module, the spare among them where it is free.
    pub fn free_in_column(&self, module: u16) -> MiddleSet
        requires { «module» < self.now.shape.modules }
        ensures { IsSetOf (IsFree self.now Column «module») self.now.shape.slots result }
    {
        self.columns.free(module)
    }
}
