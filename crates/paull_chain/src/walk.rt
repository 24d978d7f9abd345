//! The walk along a chain, and along both chains in step.
ghost use Rattle.std.specs.Prelude.{◌≡◌, ◌+◌, ◌<◌, ◌≤◌, ◌++◌, ◌∷◌, [], length, List, MatchOption, IfNone, IfSome};
ghost use Rattle.std.specs.Bool.{OnTrue, OnFalse};
ghost use Rattle.arrayvec.specs.ArrayVec.{array_vec_len};
ghost use Rattle.dxc_num.specs.declared.port.Leg.{Leg};
ghost use Rattle.dxc_num.specs.Dimensions.{IsInside};
ghost use Rattle.paull_matrix.specs.declared.side.Side.TheVariants.{Row, Column};
ghost use Rattle.paull_matrix.specs.Colourings.{IsFree, IsOn, module_on};
ghost use Rattle.paull_chain.specs.Chains.{leave, other, pair_of};
ghost use Rattle.paull_chain.specs.Walks.{GoesOn, IsShortChain, IsShorter, lane_on, legs_on, row_and_column};

use arrayvec::ArrayVec;
use dxc_num::{Leg, Middle, Shape};
use paull_matrix::{Matrix, Side};

fn turned(side: Side) -> Side
    ensures { result ≡ other side }
{
    match side {
        Side::Row => Side::Column,
        Side::Column => Side::Row,
    }
}

/// The module of a leg on a side: its row or its column.
pub fn module_of(shape: Shape, side: Side, leg: Leg) -> u16
    ensures { result ≡ module_on shape side leg }
{
    match side {
        Side::Row => shape.module_of(leg.input),
        Side::Column => shape.module_of(leg.output),
    }
}

// The leg on which a chain leaves this row or column.
fn next_leg(matrix: &Matrix, side: Side, module: u16, a: Middle, b: Middle) -> Option<Leg>
    requires { («module» < matrix.now.shape.modules)
        × (a.0 ≤ matrix.now.shape.slots) × (b.0 ≤ matrix.now.shape.slots) }
    ensures { MatchOption result (IsFree matrix.now side «module» (leave a.0 b.0 side))
        (IsOn matrix.now side «module» (leave a.0 b.0 side)) }
{
    match side {
        Side::Row => matrix.in_row(module, b),
        Side::Column => matrix.in_column(module, a),
    }
}

// Goes on by one leg, and answers where it leads. None: the chain is whole.
fn extend(
    matrix: &Matrix,
    side: Side,
    module: u16,
    a: Middle,
    b: Middle,
    legs: &mut ArrayVec<Leg, 64>,
) -> Option<u16>
    requires inside { («module» < matrix.now.shape.modules)
        × (a.0 ≤ matrix.now.shape.slots) × (b.0 ≤ matrix.now.shape.slots) }
    requires room { array_vec_len legs.old < 64 }
    ensures whole { IfNone result (IsFree matrix.now side «module» (leave a.0 b.0 side)
        × (legs.new.items ≡ legs.old.items)) }
    ensures more { IfSome result
        (GoesOn matrix.now (pair_of a.0 b.0) (lane_on side «module») legs.old.items
        legs.new.items) }
    ensures low { IfSome result (λ n. n < matrix.now.shape.modules) }
{
    let shape = matrix.shape();
    let leg = next_leg(matrix, side, module, a, b)?;
    legs.push(leg);
    Some(module_of(shape, turned(side), leg))
}

// Both chains go on by two legs a round. So many rounds would be 128 legs, and the two have fewer together.
const ROUNDS: u16 = 32;

/// Walks both chains in step until one of them ends, and tells which: the shorter one, the row chain where they are equal.
///
/// One of them ends within as many legs as there are modules.
pub fn shorter(
    matrix: &Matrix,
    row: u16,
    column: u16,
    a: Middle,
    b: Middle,
    rows: &mut ArrayVec<Leg, 64>,
    columns: &mut ArrayVec<Leg, 64>,
) -> Side
    requires inside { (row < matrix.now.shape.modules) × (column < matrix.now.shape.modules)
        × (a.0 ≤ matrix.now.shape.slots) × (b.0 ≤ matrix.now.shape.slots) }
    requires free { IsFree matrix.now Row row a.0 × IsFree matrix.now Column column b.0 }
    requires none { (rows.old.items ≡ []) × (columns.old.items ≡ []) }
    ensures { IsShorter matrix.now (pair_of a.0 b.0) (row_and_column row column) result
        (legs_on result rows.new.items columns.new.items) }
{
    let _shape = matrix.shape();
    let mut row_at = row;
    let mut column_at = column;
    for pairs in 0..ROUNDS {
        match extend(matrix, Side::Row, row_at, a, b, rows) {
            Some(next) => row_at = next,
            None => return Side::Row,
        }
        match extend(matrix, Side::Column, column_at, a, b, columns) {
            Some(next) => column_at = next,
            None => return Side::Column,
        }
        match extend(matrix, Side::Column, row_at, a, b, rows) {
            Some(next) => row_at = next,
            None => return Side::Row,
        }
        match extend(matrix, Side::Row, column_at, a, b, columns) {
            Some(next) => column_at = next,
            None => return Side::Column,
        }
    }
    unreachable!()
}

/// The legs of the chain from this side.
pub fn legs_of<'a>(
    side: Side,
    rows: &'a ArrayVec<Leg, 64>,
    columns: &'a ArrayVec<Leg, 64>,
) -> &'a [Leg]
    ensures { result.now ≡ legs_on side rows.now.items columns.now.items }
{
    match side {
        Side::Row => rows.as_slice(),
        Side::Column => columns.as_slice(),
    }
}

/// Walks the chain from one side of the leg. False exactly where it has more than r - 1 legs.
pub fn short_chain(
    matrix: &Matrix,
    side: Side,
    leg: Leg,
    a: Middle,
    b: Middle,
    legs: &mut ArrayVec<Leg, 64>,
) -> bool
    requires inside { IsInside matrix.now.shape leg
        × (a.0 ≤ matrix.now.shape.slots) × (b.0 ≤ matrix.now.shape.slots) }
    requires none { legs.old.items ≡ [] }
    ensures whole { let m = module_on matrix.now.shape side leg in
        OnTrue result (IsShortChain matrix.now (pair_of a.0 b.0) side m legs.new.items) }
    ensures longer { let m = module_on matrix.now.shape side leg in
        OnFalse result
        ((ls : List Leg) → ¬ IsShortChain matrix.now (pair_of a.0 b.0) side m ls) }
{
    let shape = matrix.shape();
    let mut module = module_of(shape, side, leg);
    let mut turn = side;
    for done in 0..shape.modules() {
        match extend(matrix, turn, module, a, b, legs) {
            Some(next) => module = next,
            None => return true,
        }
        turn = turned(turn);
    }
    false
}
