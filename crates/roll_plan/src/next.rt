//! The next writes of a work, taken together where they are those of one move, one join or one part.
ghost use Rattle.std.specs.Prelude.{◌≡◌, ◌<◌, ◌*◌, length, IfSome, Some};
ghost use Rattle.roll_plan.specs.Works.{join_writes, moves_writes, op_writes, part_writes, writes_of};
ghost use Rattle.roll_plan.specs.Nexts.{IsNext};

use crate::op::{LegOp, Move};
use crate::op_writes::{MOVE, move_write, op_count, writes_of_join, writes_of_part};
use crate::work::Work;
use dxc_num::{Leg, Middle, RegWrite};

/// What is written next.
#[derive(Clone, Copy)]
pub enum Next {
    /// All writes of a move.
    All(Move),
    /// All writes of the join of a leg at a middle.
    Join(Leg, Middle),
    /// All writes of the part of a leg from a middle.
    Part(Leg, Middle),
    /// One write.
    One(RegWrite),
}

// What is written next at a place of these moves' writes.
#[inline(always)]
fn next_of_moves(moves: &[Move], place: usize) -> Next
    requires { place < 5 * length moves.now }
    ensures { IsNext (moves_writes moves.now) place (Some result) }
{
    let number = place / MOVE;
    let step = moves[number];
    let made = place - MOVE * number;
    if made == 0 {
        Next::All(step)
    } else {
        Next::One(move_write(step, made))
    }
}

// What is written next at a place of a join.
#[inline(always)]
fn next_of_join(leg: Leg, middle: Middle, place: usize) -> Next
    requires { place < 3 }
    ensures { IsNext (join_writes leg middle) place (Some result) }
{
    match place {
        0 => Next::Join(leg, middle),
        _ => Next::One(writes_of_join(leg, middle)[place]),
    }
}

// What is written next at a place of a part.
#[inline(always)]
fn next_of_part(leg: Leg, middle: Middle, place: usize) -> Next
    requires { place < 3 }
    ensures { IsNext (part_writes leg middle) place (Some result) }
{
    match place {
        0 => Next::Part(leg, middle),
        _ => Next::One(writes_of_part(leg, middle)[place]),
    }
}

// What is written next at a place of an op.
#[inline(always)]
fn next_of_op(op: &LegOp, place: usize) -> Next
    requires { place < length (op_writes op.now) }
    ensures { IsNext (op_writes op.now) place (Some result) }
{
    match op {
        LegOp::Join { leg, choice, moves } => {
            let before = MOVE * moves.len();
            if place < before {
                next_of_moves(moves.as_slice(), place)
            } else {
                next_of_join(*leg, choice.middle, place - before)
            }
        }
        LegOp::Part { leg, middle } => next_of_part(*leg, *middle, place),
        LegOp::Shift { moves } => next_of_moves(moves.as_slice(), place),
    }
}

/// What is written next where the first t writes of a work are made. None exactly where it has no more than so many.
#[inline(always)]
pub fn next_at_step(work: &Work, t: usize) -> Option<Next>
    ensures next { IsNext (writes_of work.now) t result }
    ensures few { IfSome result (λ _. t < 946) }
{
    let mut place = t;
    for op in work.ops.as_slice() {
        let count = op_count(op);
        if place < count {
            return Some(next_of_op(op, place));
        }
        place -= count;
    }
    None
}
