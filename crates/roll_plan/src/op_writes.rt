//! The register writes of one op.
ghost use Rattle.std.specs.Prelude.{◌≡◌, ◌<◌, ◌≤◌, length, Some, slice_get};
ghost use Rattle.roll_plan.specs.Works.{join_writes, move_writes, moves_writes, op_writes, part_writes, switches_in};

use crate::op::{LegOp, Move};
use dxc_num::{Leg, Middle, RegWrite, WriteKind};

/// How many writes a move has.
pub const MOVE: usize = 5;

/// The write at a place of a move, from 0.
#[inline(always)]
pub fn move_write(step: Move, place: usize) -> RegWrite
    requires { place < 5 }
    ensures { slice_get (move_writes step) place ≡ Some result }
{
    let (kind, middle) = match place {
        0 => (WriteKind::SetIn, step.to),
        1 => (WriteKind::SetMid, step.to),
        2 => (WriteKind::SwitchOut, step.to),
        3 => (WriteKind::ClearMid, step.from),
        _ => (WriteKind::ClearIn, step.from),
    };
    RegWrite {
        kind,
        leg: step.leg,
        middle,
    }
}

/// The writes of the join of a leg at a middle, in order.
#[inline(always)]
pub fn writes_of_join(leg: Leg, middle: Middle) -> [RegWrite; 3]
    ensures { result ≡ join_writes leg middle }
{
    [
        RegWrite {
            kind: WriteKind::SetIn,
            leg,
            middle,
        },
        RegWrite {
            kind: WriteKind::SetMid,
            leg,
            middle,
        },
        RegWrite {
            kind: WriteKind::SwitchOut,
            leg,
            middle,
        },
    ]
}

/// The writes of the part of a leg from a middle, in order.
#[inline(always)]
pub fn writes_of_part(leg: Leg, middle: Middle) -> [RegWrite; 3]
    ensures { result ≡ part_writes leg middle }
{
    [
        RegWrite {
            kind: WriteKind::ClearOut,
            leg,
            middle,
        },
        RegWrite {
            kind: WriteKind::ClearMid,
            leg,
            middle,
        },
        RegWrite {
            kind: WriteKind::ClearIn,
            leg,
            middle,
        },
    ]
}

#[inline(always)]
fn moves_write(moves: &[Move], place: usize) -> Option<RegWrite>
    ensures { result ≡ slice_get (moves_writes moves.now) place }
{
    let step = moves.get(place / MOVE)?;
    Some(move_write(*step, place % MOVE))
}

fn join_write(leg: Leg, middle: Middle, place: usize) -> Option<RegWrite>
    ensures { result ≡ slice_get (join_writes leg middle) place }
{
    let kind = match place {
        0 => WriteKind::SetIn,
        1 => WriteKind::SetMid,
        2 => WriteKind::SwitchOut,
        _ => return None,
    };
    Some(RegWrite { kind, leg, middle })
}

fn part_write(leg: Leg, middle: Middle, place: usize) -> Option<RegWrite>
    ensures { result ≡ slice_get (part_writes leg middle) place }
{
    let kind = match place {
        0 => WriteKind::ClearOut,
        1 => WriteKind::ClearMid,
        2 => WriteKind::ClearIn,
        _ => return None,
    };
    Some(RegWrite { kind, leg, middle })
}

/// How many writes an op has.
pub fn op_count(op: &LegOp) -> usize
    ensures count { result ≡ length (op_writes op.now) }
    ensures few { result ≤ 473 }
{
    match op {
        LegOp::Join { moves, .. } => MOVE * moves.len() + 3,
        LegOp::Part { .. } => 3,
        LegOp::Shift { moves } => MOVE * moves.len(),
    }
}

/// The write at a place of an op, from 0.
#[inline(always)]
pub fn op_write(op: &LegOp, place: usize) -> Option<RegWrite>
    ensures { result ≡ slice_get (op_writes op.now) place }
{
    match op {
        LegOp::Join { leg, choice, moves } => {
            let before = MOVE * moves.len();
            if place < before {
                moves_write(moves.as_slice(), place)
            } else {
                join_write(*leg, choice.middle, place - before)
            }
        }
        LegOp::Part { leg, middle } => part_write(*leg, *middle, place),
        LegOp::Shift { moves } => moves_write(moves.as_slice(), place),
    }
}

/// How many switches an op makes: one a move, and one of a join.
pub fn op_switches(op: &LegOp) -> u64
    ensures count { result ≡ switches_in (op_writes op.now) }
    ensures few { result ≤ 95 }
{
    match op {
        LegOp::Join { moves, .. } => moves.len() as u64 + 1,
        LegOp::Part { .. } => 0,
        LegOp::Shift { moves } => moves.len() as u64,
    }
}
