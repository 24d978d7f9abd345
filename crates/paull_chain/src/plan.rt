//! The plan of a join.
ghost use Rattle.std.specs.Prelude.{◌≡◌, ◌<◌, ◌≤◌, ◌↔◌, [], ◌∷◌, ℕ, IsBitSet, IsTrue, MatchOption};
ghost use Rattle.dxc_num.specs.Dimensions.{IsInside};
ghost use Rattle.paull_matrix.specs.Colourings.{IsFree, IsFreeFor, IsProperColouring, IsUnused, module_on};
ghost use Rattle.paull_matrix.specs.Middles.{FindsLowest, IsLowest, IsSetOf};
ghost use Rattle.paull_chain.specs.Choices.{IsJoinable, NeedsChain, Plans};
ghost use Rattle.paull_chain.specs.Works.{IsValidWork};

use crate::exchange::join_in_place;
use crate::walk::{legs_of, module_of, shorter};
use arrayvec::ArrayVec;
use dxc_num::{Leg, Middle};
use paull_matrix::{Matrix, MiddleSet, Side};
use roll_plan::LegOp;

/// The middles that are free on one side of the leg.
pub fn free_beside(matrix: &Matrix, side: Side, leg: Leg) -> MiddleSet
    requires { IsInside matrix.now.shape leg }
    ensures { IsSetOf (IsFree matrix.now side (module_on matrix.now.shape side leg))
        matrix.now.shape.slots result }
{
    let module = module_of(matrix.shape(), side, leg);
    match side {
        Side::Row => matrix.free_in_row(module),
        Side::Column => matrix.free_in_column(module),
    }
}

// The lowest working middle that is free for the leg.
fn lowest_for(matrix: &Matrix, leg: Leg) -> Option<Middle>
    requires { IsInside matrix.now.shape leg }
    ensures proper { IsProperColouring matrix.now }
    ensures lowest { FindsLowest (IsFreeFor matrix.now leg) matrix.now.shape.slots result }
{
    matrix.free_for(leg).lowest(matrix.shape().slots())
}

// The lowest working middle that is free on one side of the leg. There is one, since the leg's own slot there is unused.
fn lowest_beside(matrix: &Matrix, side: Side, leg: Leg) -> Middle
    requires { IsInside matrix.now.shape leg × IsUnused matrix.now leg }
    ensures { let P = IsFree matrix.now side (module_on matrix.now.shape side leg) in
        IsLowest P matrix.now.shape.slots result.0 }
{
    let free = free_beside(matrix, side, leg);
    match free.lowest(matrix.shape().slots()) {
        Some(middle) => middle,
        None => unreachable!(),
    }
}

// Makes of an op the join after the exchange of the shorter chain.
#[inline(always)]
fn by_chain(matrix: &Matrix, leg: Leg, a: Middle, b: Middle, op: &mut LegOp)
    requires leg { IsJoinable matrix.now leg }
    requires needs { NeedsChain matrix.now leg a.0 b.0 }
    ensures { Plans matrix.now leg op.new }
{
    let shape = matrix.shape();
    let row = shape.module_of(leg.input);
    let column = shape.module_of(leg.output);
    let mut rows = ArrayVec::new();
    let mut columns = ArrayVec::new();
    let side = shorter(matrix, row, column, a, b, &mut rows, &mut columns);
    let legs = legs_of(side, &rows, &columns);
    join_in_place(op, leg, side, legs, a, b, shape.spare());
}

/// Whether a join of the leg may be planned: its ends are ports, both its sides are unused, and the spare is empty.
pub fn may_join(matrix: &Matrix, leg: Leg) -> bool
    ensures { IsTrue result ↔ IsJoinable matrix.now leg }
{
    if !matrix.is_inside(leg) {
        return false;
    }
    if !matrix.is_unused(leg) {
        return false;
    }
    matrix.is_empty(matrix.shape().spare())
}

/// Makes of an op the join of a new leg for which no working middle is free: the one after the exchange of the shorter of its
/// two chains.
pub fn plan_chain(matrix: &Matrix, leg: Leg, op: &mut LegOp)
    requires leg { IsJoinable matrix.now leg }
    requires none { (k : ℕ) → k < matrix.now.shape.slots → ¬ IsFreeFor matrix.now leg k }
    ensures { Plans matrix.now leg op.new }
{
    let a = lowest_beside(matrix, Side::Row, leg);
    let b = lowest_beside(matrix, Side::Column, leg);
    by_chain(matrix, leg, a, b, op);
}

/// The join of a new leg: on the lowest working middle that is free in its row and column, or else after the exchange of
/// the shorter of its two chains.
///
/// In a network of r modules a side that takes at most 3 (r - 1) / 2 moves.
pub fn plan_join(matrix: &Matrix, leg: Leg) -> LegOp
    requires { IsJoinable matrix.now leg }
    ensures planned { Plans matrix.now leg result }
    ensures valid { IsValidWork matrix.now (result ∷ []) }
{
    if let Some(middle) = lowest_for(matrix, leg) {
        return LegOp::direct(leg, middle);
    }
    let mut op = LegOp::default();
    plan_chain(matrix, leg, &mut op);
    op
}
