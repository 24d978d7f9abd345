//! The join that a given choice makes.
ghost use Rattle.std.specs.Prelude.{◌≡◌, ◌<◌, ◌≤◌, ◌↔◌, ◌∷◌, [], IfSome, IsTrue, IsBitSet, MatchOption};
ghost use Rattle.dxc_num.specs.Dimensions.{IsInside};
ghost use Rattle.roll_plan.specs.declared.op.Chain.TheVariants.{Direct};
ghost use Rattle.paull_matrix.specs.Colourings.{IsFree, module_on};
ghost use Rattle.paull_chain.specs.Choices.{choice_on, Expands, IsJoinable, IsPair, IsValidChoice};
ghost use Rattle.paull_chain.specs.Works.{IsValidWork};

use crate::exchange::join_after;
use crate::plan::free_beside;
use crate::walk::short_chain;
use arrayvec::ArrayVec;
use dxc_num::{Leg, Middle};
use paull_matrix::{Matrix, Side};
use roll_plan::{Chain, Choice, LegOp};

fn is_free(matrix: &Matrix, side: Side, leg: Leg, middle: Middle) -> bool
    requires { IsInside matrix.now.shape leg × (middle.0 < matrix.now.shape.slots) }
    ensures { IsTrue result ↔ IsFree matrix.now side (module_on matrix.now.shape side leg)
        middle.0 }
{
    let _slots = matrix.shape().slots();
    free_beside(matrix, side, leg).contains(middle)
}

// Whether both middles work, a free in the row and b in the column, and neither for the leg.
fn is_pair(matrix: &Matrix, leg: Leg, a: Middle, b: Middle) -> bool
    requires { IsInside matrix.now.shape leg }
    ensures { IsTrue result ↔ IsPair matrix.now leg a.0 b.0 }
{
    let slots = matrix.shape().slots();
    if a.0 as u16 >= slots || b.0 as u16 >= slots {
        return false;
    }
    if !is_free(matrix, Side::Row, leg, a) {
        return false;
    }
    if !is_free(matrix, Side::Column, leg, b) {
        return false;
    }
    if is_free(matrix, Side::Column, leg, a) {
        return false;
    }
    !is_free(matrix, Side::Row, leg, b)
}

fn expand_direct(matrix: &Matrix, leg: Leg, middle: Middle) -> Option<LegOp>
    requires { IsJoinable matrix.now leg }
    ensures { MatchOption result (¬ IsValidChoice matrix.now leg middle.0 Direct)
        (Expands matrix.now leg (record { middle = middle; chain = Direct })) }
{
    if middle.0 as u16 >= matrix.shape().slots() {
        return None;
    }
    if !matrix.is_free_for(leg, middle) {
        return None;
    }
    Some(LegOp::direct(leg, middle))
}

fn expand_chain(matrix: &Matrix, leg: Leg, side: Side, a: Middle, b: Middle) -> Option<LegOp>
    requires { IsJoinable matrix.now leg }
    ensures { let h = choice_on side a b in MatchOption result
        (¬ IsValidChoice matrix.now leg h.middle.0 h.chain) (Expands matrix.now leg h) }
{
    if !is_pair(matrix, leg, a, b) {
        return None;
    }
    let mut legs = ArrayVec::new();
    if !short_chain(matrix, side, leg, a, b, &mut legs) {
        return None;
    }
    let spare = matrix.shape().spare();
    Some(join_after(leg, side, legs.as_slice(), a, b, spare))
}

/// The join of a new leg by this choice, a valid work. None exactly where the choice isn't valid.
pub fn expand(matrix: &Matrix, leg: Leg, choice: Choice) -> Option<LegOp>
    requires { IsJoinable matrix.now leg }
    ensures expands { MatchOption result
        (¬ IsValidChoice matrix.now leg choice.middle.0 choice.chain)
        (Expands matrix.now leg choice) }
    ensures valid { IfSome result (λ op. IsValidWork matrix.now (op ∷ [])) }
{
    match choice.chain {
        Chain::Direct => expand_direct(matrix, leg, choice.middle),
        Chain::Row(a) => expand_chain(matrix, leg, Side::Row, a, choice.middle),
        Chain::Column(b) => expand_chain(matrix, leg, Side::Column, choice.middle, b),
    }
}
