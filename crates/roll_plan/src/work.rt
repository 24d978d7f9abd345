ghost use Rattle.std.specs.Prelude.{◌≡◌, ◌<◌, ◌≤◌, length, slice_get, IfSome, Some, [], ◌∷◌};
ghost use Rattle.roll_plan.specs.Works.{switches_in, writes_of};

use crate::op::LegOp;
use crate::op_writes::{op_count, op_switches, op_write};
use arrayvec::ArrayVec;
use dxc_num::RegWrite;

/// One command's change of the registers: an op for each leg, in order.
#[derive(PartialEq, Eq, Drop)]
pub struct Work {
    pub ops: ArrayVec<LegOp, 2>,
}

impl Work {
    /// The work of one op.
    pub fn of(op: LegOp) -> Work
        ensures { result.ops.items ≡ op ∷ [] }
    {
        let mut ops = ArrayVec::new();
        ops.push(op);
        Work { ops }
    }
}

/// How many register writes a work has: five a move, three a join or a part.
pub fn writes(work: &Work) -> usize
    ensures count { result ≡ length (writes_of work.now) }
    ensures few { result ≤ 946 }
{
    let mut count = 0;
    for op in work.ops.as_slice() {
        count += op_count(op);
    }
    count
}

// The write at a place, where it is one of the first op. Most works have one op, and no other is asked for then.
#[inline(always)]
fn write_of_first(work: &Work, t: usize) -> Option<RegWrite>
    ensures write { IfSome result (λ w. slice_get (writes_of work.now) t ≡ Some w) }
    ensures few { IfSome result (λ _. t < 946) }
{
    // So many writes an op has at most.
    if t >= 473 {
        return None;
    }
    let first = work.ops.as_slice().get(0)?;
    op_write(first, t)
}

// The write at a place, sought op by op.
fn write_in_order(work: &Work, t: usize) -> Option<RegWrite>
    ensures write { result ≡ slice_get (writes_of work.now) t }
    ensures few { IfSome result (λ _. t < 946) }
{
    let mut place = t;
    for op in work.ops.as_slice() {
        let count = op_count(op);
        if place < count {
            return op_write(op, place);
        }
        place -= count;
    }
    None
}

/// The register write at a place of a work, from 0. None exactly where the work has no more than so many writes.
#[inline(always)]
pub fn write_at_step(work: &Work, t: usize) -> Option<RegWrite>
    ensures write { result ≡ slice_get (writes_of work.now) t }
    ensures few { IfSome result (λ _. t < 946) }
{
    match write_of_first(work, t) {
        Some(write) => Some(write),
        None => write_in_order(work, t),
    }
}

/// How many switches the writes of a work make: its joins and moves.
pub fn switches(work: &Work) -> u64
    ensures count { result ≡ switches_in (writes_of work.now) }
    ensures few { result ≤ 190 }
{
    let mut count = 0;
    for op in work.ops.as_slice() {
        count += op_switches(op);
    }
    count
}
