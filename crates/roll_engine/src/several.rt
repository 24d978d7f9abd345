//! The next one to five writes of the work in hand, one after the other.
ghost use Rattle.std.specs.Prelude.{◌≡◌, ◌+◌, ◌<◌, Ok, Some, slice_get};
ghost use Rattle.roll_plan.specs.Works.{writes_of};
ghost use Rattle.roll_plan.specs.Nexts.{Begins, BeginsMove};
ghost use Rattle.roll_engine.specs.Courses.{IsReady};
ghost use Rattle.roll_engine.specs.Rollings.{at_step, rest_of};
ghost use Rattle.roll_engine.specs.Walks.{WalksOn, walker_at};

use crate::halt::Halt;
use crate::make::step_on;
use crate::rolling::Rolling;
use dxc_num::RegWrite;
use dxc_outside::Gate;
use fabric_words::{Fabric, MoverSeat};
use roll_plan::{Move, move_write};

/// Makes the next write of the work in hand, where neither a frame nor the gate stands in its way. Ok: it is made.
#[inline(always)]
pub(crate) fn write_on<G: Gate>(
    fabric: &Fabric,
    mover: &mut MoverSeat,
    rolling: &Rolling,
    made: &mut usize,
    write: RegWrite,
    gate: &mut G,
) -> Result<(), Halt>
    requires own { mover.old.fabric ≡ fabric.now }
    requires few { made.old < 951 }
    requires next { slice_get (writes_of rolling.now.work) made.old ≡ Some write }
    requires ready { IsReady fabric.now.size (rest_of (at_step made.old rolling.now))
        mover.old.mover }
    ensures own { mover.new.fabric ≡ fabric.now }
    ensures walks { WalksOn G.Gate fabric.now.size
        (walker_at (at_step made.old rolling.now) mover.old.mover gate.old)
        (walker_at (at_step made.new rolling.now) mover.new.mover gate.new) result }
    ensures one { result ≡ Ok tt → made.new ≡ made.old + 1 }
{
    // Whose write it is only the contract asks.
    let _ = rolling;
    step_on(fabric, mover, write, gate)?;
    *made += 1;
    Ok(())
}

// Makes the next two writes of the work in hand. Ok: both are made.
#[inline(always)]
fn write_two<G: Gate>(
    fabric: &Fabric,
    mover: &mut MoverSeat,
    rolling: &Rolling,
    made: &mut usize,
    first: RegWrite,
    second: RegWrite,
    gate: &mut G,
) -> Result<(), Halt>
    requires own { mover.old.fabric ≡ fabric.now }
    requires few { made.old < 950 }
    requires first { slice_get (writes_of rolling.now.work) made.old ≡ Some first }
    requires second { slice_get (writes_of rolling.now.work) (made.old + 1) ≡ Some second }
    requires ready { IsReady fabric.now.size (rest_of (at_step made.old rolling.now))
        mover.old.mover }
    ensures own { mover.new.fabric ≡ fabric.now }
    ensures walks { WalksOn G.Gate fabric.now.size
        (walker_at (at_step made.old rolling.now) mover.old.mover gate.old)
        (walker_at (at_step made.new rolling.now) mover.new.mover gate.new) result }
    ensures two { result ≡ Ok tt → made.new ≡ made.old + 2 }
{
    write_on(fabric, mover, rolling, made, first, gate)?;
    write_on(fabric, mover, rolling, made, second, gate)
}

/// Makes the next writes of the work in hand, which are those of a move. Ok: all five are made. They stand one after the other, and not
/// in a loop, so that each is compiled for its own kind.
#[inline(always)]
pub(crate) fn move_on<G: Gate>(
    fabric: &Fabric,
    mover: &mut MoverSeat,
    rolling: &Rolling,
    made: &mut usize,
    step: Move,
    gate: &mut G,
) -> Result<(), Halt>
    requires own { mover.old.fabric ≡ fabric.now }
    requires few { made.old < 946 }
    requires next { BeginsMove (writes_of rolling.now.work) made.old step }
    requires ready { IsReady fabric.now.size (rest_of (at_step made.old rolling.now))
        mover.old.mover }
    ensures own { mover.new.fabric ≡ fabric.now }
    ensures walks { WalksOn G.Gate fabric.now.size
        (walker_at (at_step made.old rolling.now) mover.old.mover gate.old)
        (walker_at (at_step made.new rolling.now) mover.new.mover gate.new) result }
    ensures all { result ≡ Ok tt → made.new ≡ made.old + 5 }
{
    let set_in = move_write(step, 0);
    let set_mid = move_write(step, 1);
    write_two(fabric, mover, rolling, made, set_in, set_mid, gate)?;
    let switch_out = move_write(step, 2);
    let clear_mid = move_write(step, 3);
    write_two(fabric, mover, rolling, made, switch_out, clear_mid, gate)?;
    let clear_in = move_write(step, 4);
    write_on(fabric, mover, rolling, made, clear_in, gate)
}

/// Makes the next three writes of the work in hand. Ok: all are made.
#[inline(always)]
pub(crate) fn three_on<G: Gate>(
    fabric: &Fabric,
    mover: &mut MoverSeat,
    rolling: &Rolling,
    made: &mut usize,
    writes: [RegWrite; 3],
    gate: &mut G,
) -> Result<(), Halt>
    requires own { mover.old.fabric ≡ fabric.now }
    requires few { made.old < 946 }
    requires next { Begins 3 (writes_of rolling.now.work) made.old writes }
    requires ready { IsReady fabric.now.size (rest_of (at_step made.old rolling.now))
        mover.old.mover }
    ensures own { mover.new.fabric ≡ fabric.now }
    ensures walks { WalksOn G.Gate fabric.now.size
        (walker_at (at_step made.old rolling.now) mover.old.mover gate.old)
        (walker_at (at_step made.new rolling.now) mover.new.mover gate.new) result }
    ensures all { result ≡ Ok tt → made.new ≡ made.old + 3 }
{
    write_two(fabric, mover, rolling, made, writes[0], writes[1], gate)?;
    write_on(fabric, mover, rolling, made, writes[2], gate)
}
