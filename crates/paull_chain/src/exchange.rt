//! The exchange of a chain as moves, and the join after it.
ghost use Rattle.std.specs.Prelude.{◌≡◌, ◌+◌, ◌≤◌, ◌++◌, [], length, true, false};
ghost use Rattle.arrayvec.specs.ArrayVec.{array_vec_len};
ghost use Rattle.paull_chain.specs.Choices.{choice_on, JoinsAfter};
ghost use Rattle.paull_chain.specs.Exchanges.{each_second, exchange, shifts};

use arrayvec::ArrayVec;
use dxc_num::{Leg, Middle};
use paull_matrix::Side;
use roll_plan::{Chain, Choice, LegOp, Move, Moves};

// Moves each second leg, from the first one on or from the second one on.
fn push_seconds(moves: &mut Moves, legs: &[Leg], first: bool, from: Middle, to: Middle)
    requires { array_vec_len moves.old + length (each_second first legs.now) ≤ 94 }
    ensures moves { moves.new.items ≡ moves.old.items ++ shifts (each_second first legs.now) from.0
        to.0 }
    ensures count { array_vec_len moves.new ≡ array_vec_len moves.old + length
        (each_second first legs.now) }
{
    let mut is_moved = first;
    for leg in legs {
        if is_moved {
            moves.push(Move {
                leg: *leg,
                from,
                to,
            });
        }
        is_moved = !is_moved;
    }
}

// Adds the exchange of a chain whose first leg is on `on` and whose second is on `next`.
#[inline(always)]
fn push_exchange(moves: &mut Moves, legs: &[Leg], on: Middle, next: Middle, spare: Middle)
    requires few { length legs.now ≤ 63 }
    requires none { moves.old.items ≡ [] }
    ensures { moves.new.items ≡ exchange legs.now on.0 next.0 spare.0 }
{
    push_seconds(moves, legs, false, next, spare);
    push_seconds(moves, legs, true, on, next);
    push_seconds(moves, legs, false, spare, on);
}

/// Makes of an op the join on the middle that the exchange of a chain makes free: the one on which the chain begins.
#[inline(always)]
pub fn join_in_place(
    op: &mut LegOp,
    leg: Leg,
    side: Side,
    legs: &[Leg],
    a: Middle,
    b: Middle,
    spare: Middle,
)
    requires { length legs.now ≤ 63 }
    ensures { JoinsAfter leg (choice_on side a b) legs.now spare.0 op.new }
{
    let (middle, next, with) = match side {
        Side::Row => (b, a, Chain::Row(a)),
        Side::Column => (a, b, Chain::Column(b)),
    };
    *op = LegOp::direct(leg, middle);
    if let LegOp::Join { choice, moves, .. } = op {
        choice.chain = with;
        push_exchange(moves, legs, middle, next, spare);
    }
}

/// That join.
pub fn join_after(leg: Leg, side: Side, legs: &[Leg], a: Middle, b: Middle, spare: Middle) -> LegOp
    requires { length legs.now ≤ 63 }
    ensures { JoinsAfter leg (choice_on side a b) legs.now spare.0 result }
{
    let mut op = LegOp::default();
    join_in_place(&mut op, leg, side, legs, a, b, spare);
    op
}
