//! Ops on the matrix, made and taken back.
ghost use Rattle.std.specs.Prelude.{◌≡◌, ◌≤◌, drop};
ghost use Rattle.paull_matrix.specs.Colourings.{Colouring};
ghost use Rattle.paull_chain.specs.Works.{after, after_op, AreValidMoves, IsValidOp, MovesMade, OpMade};

use dxc_num::{Middle, Shape};
use paull_matrix::Matrix;
use roll_plan::{LegOp, Move};

// Makes those moves from a place on that go from one middle to another, and tells where the next one stands.
#[inline(always)]
fn make_run(
    matrix: &mut Matrix,
    shape: Shape,
    moves: &[Move],
    start: usize,
    from: Middle,
    to: Middle,
) -> usize
    requires same { shape ≡ matrix.old.shape }
    requires valid { AreValidMoves (drop start moves.now) matrix.old }
    ensures made { AreValidMoves (drop result moves.now) matrix.new
        × (after (drop result moves.now) matrix.new ≡ after (drop start moves.now) matrix.old) }
    ensures on { start ≤ result }
    ensures shape { matrix.new.shape ≡ matrix.old.shape }
{
    let mut at = start;
    while at < moves.len() && moves[at].from == from && moves[at].to == to {
        matrix.turn_in(shape, moves[at].leg, from, to);
        at += 1;
    }
    at
}

// The moves of a chain come in three runs, and within one what hangs on its middles alone is reckoned once.
fn make_moves(matrix: &mut Matrix, moves: &[Move])
    requires { AreValidMoves moves.now matrix.old }
    ensures { matrix.new ≡ after moves.now matrix.old }
{
    let shape = matrix.shape();
    let mut at = 0;
    while at < moves.len() {
        let step = moves[at];
        matrix.turn_in(shape, step.leg, step.from, step.to);
        at = make_run(matrix, shape, moves, at + 1, step.from, step.to);
    }
}

fn take_back(matrix: &mut Matrix, moves: &[Move])
    requires { (c : Colouring) × MovesMade moves.now c matrix.old }
    ensures { (c : Colouring) → MovesMade moves.now c matrix.old → matrix.new ≡ c }
{
    let mut left = moves.len();
    while left > 0 {
        left -= 1;
        let step = moves[left];
        matrix.turn(step.leg, step.to, step.from);
    }
}

/// Makes an op that is valid for the matrix.
pub fn apply(matrix: &mut Matrix, op: &LegOp)
    requires { IsValidOp matrix.old op.now }
    ensures { matrix.new ≡ after_op op.now matrix.old }
{
    match op {
        LegOp::Join { leg, choice, moves } => {
            make_moves(matrix, moves.as_slice());
            matrix.place(*leg, choice.middle);
        }
        LegOp::Part { leg, .. } => matrix.remove(*leg),
        LegOp::Shift { moves } => make_moves(matrix, moves.as_slice()),
    }
}

/// Gives back the matrix on which a valid op was made.
pub fn undo(matrix: &mut Matrix, op: &LegOp)
    requires { (c : Colouring) × OpMade op.now c matrix.old }
    ensures { (c : Colouring) → OpMade op.now c matrix.old → matrix.new ≡ c }
{
    match op {
        LegOp::Join { leg, moves, .. } => {
            matrix.remove(*leg);
            take_back(matrix, moves.as_slice());
        }
        LegOp::Part { leg, middle } => matrix.place(*leg, *middle),
        LegOp::Shift { moves } => take_back(matrix, moves.as_slice()),
    }
}
