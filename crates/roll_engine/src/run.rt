//! The writes of a work, as far as frames and the gate let them.
ghost use Rattle.std.specs.Prelude.{◌≡◌, ◌+◌, ◌++◌, ◌<◌, [], Ok, Err, Some, slice_get};
ghost use Rattle.dxc_causes.specs.Stops.{RoseOnlyFor};
ghost use Rattle.roll_plan.specs.Works.{writes_of};
ghost use Rattle.roll_plan.specs.Nexts.{IsNext};
ghost use Rattle.roll_engine.specs.Courses.{IsReady};
ghost use Rattle.roll_engine.specs.Rollings.{at_step, rest_of};
ghost use Rattle.roll_engine.specs.Answers.{GoesOn, IsAnswer, ahead_of, asked_at};
ghost use Rattle.roll_engine.specs.Walks.{WalksOn, walker_at};

use crate::halt::Halt;
use crate::rolling::Rolling;
use crate::several::{move_on, three_on, write_on};
use dxc_num::RegWrite;
use dxc_outside::Gate;
use fabric_words::{Fabric, MoverSeat};
use roll_plan::{Next, next_at_step, writes_of_join, writes_of_part};

// Makes the next write of the work in hand, of whatever kind: after a stop, one stands alone. It takes and tells the count by value: a count
// that a call borrows lies in memory, and is loaded and stored at each write.
#[inline(never)]
fn one_on<G: Gate>(
    fabric: &Fabric,
    mover: &mut MoverSeat,
    rolling: &Rolling,
    made: usize,
    write: RegWrite,
    gate: &mut G,
) -> (Result<(), Halt>, usize)
    requires own { mover.old.fabric ≡ fabric.now }
    requires few { made < 951 }
    requires next { slice_get (writes_of rolling.now.work) made ≡ Some write }
    requires ready { IsReady fabric.now.size (rest_of (at_step made rolling.now)) mover.old.mover }
    ensures own { mover.new.fabric ≡ fabric.now }
    ensures walks { WalksOn G.Gate fabric.now.size
        (walker_at (at_step made rolling.now) mover.old.mover gate.old)
        (walker_at (at_step result.1 rolling.now) mover.new.mover gate.new) result.0 }
    ensures one { result.0 ≡ Ok tt → result.1 ≡ made + 1 }
{
    let mut count = made;
    let answer = write_on(fabric, mover, rolling, &mut count, write, gate);
    (answer, count)
}

// Makes what comes next of the work in hand. Ok: it is made.
#[inline(always)]
fn next_on<G: Gate>(
    fabric: &Fabric,
    mover: &mut MoverSeat,
    rolling: &Rolling,
    made: &mut usize,
    next: Next,
    gate: &mut G,
) -> Result<(), Halt>
    requires own { mover.old.fabric ≡ fabric.now }
    requires few { made.old < 946 }
    requires next { IsNext (writes_of rolling.now.work) made.old (Some next) }
    requires ready { IsReady fabric.now.size (rest_of (at_step made.old rolling.now))
        mover.old.mover }
    ensures own { mover.new.fabric ≡ fabric.now }
    ensures walks { WalksOn G.Gate fabric.now.size
        (walker_at (at_step made.old rolling.now) mover.old.mover gate.old)
        (walker_at (at_step made.new rolling.now) mover.new.mover gate.new) result }
    ensures more { result ≡ Ok tt → made.old < made.new }
{
    match next {
        Next::All(step) => move_on(fabric, mover, rolling, made, step, gate),
        Next::Join(leg, middle) => {
            three_on(
                fabric,
                mover,
                rolling,
                made,
                writes_of_join(leg, middle),
                gate,
            )
        }
        Next::Part(leg, middle) => {
            three_on(
                fabric,
                mover,
                rolling,
                made,
                writes_of_part(leg, middle),
                gate,
            )
        }
        Next::One(write) => {
            let (answer, count) = one_on(fabric, mover, rolling, *made, write, gate);
            *made = count;
            answer
        }
    }
}

// Makes the writes of the first op's moves, where no write is made yet, without seeking the place of each. Ok: nothing stood in the way.
#[inline(always)]
fn moves_on<G: Gate>(
    fabric: &Fabric,
    mover: &mut MoverSeat,
    rolling: &Rolling,
    made: &mut usize,
    gate: &mut G,
) -> Result<(), Halt>
    requires own { mover.old.fabric ≡ fabric.now }
    requires ready { IsReady fabric.now.size (rest_of (at_step made.old rolling.now))
        mover.old.mover }
    ensures own { mover.new.fabric ≡ fabric.now }
    ensures walks { WalksOn G.Gate fabric.now.size
        (walker_at (at_step made.old rolling.now) mover.old.mover gate.old)
        (walker_at (at_step made.new rolling.now) mover.new.mover gate.new) result }
{
    if *made != 0 {
        return Ok(());
    }
    for step in rolling.first_moves() {
        move_on(fabric, mover, rolling, made, *step, gate)?;
    }
    Ok(())
}

// Makes the writes that are left, and counts them. Ok: all are made.
#[inline(always)]
fn writes_on<G: Gate>(
    fabric: &Fabric,
    mover: &mut MoverSeat,
    rolling: &Rolling,
    made: &mut usize,
    gate: &mut G,
) -> Result<(), Halt>
    requires own { mover.old.fabric ≡ fabric.now }
    requires ready { IsReady fabric.now.size (rest_of (at_step made.old rolling.now))
        mover.old.mover }
    ensures own { mover.new.fabric ≡ fabric.now }
    ensures walks { WalksOn G.Gate fabric.now.size
        (walker_at (at_step made.old rolling.now) mover.old.mover gate.old)
        (walker_at (at_step made.new rolling.now) mover.new.mover gate.new) result }
    ensures all { result ≡ Ok tt → rest_of (at_step made.new rolling.now) ≡ [] }
{
    moves_on(fabric, mover, rolling, made, gate)?;
    while let Some(next) = next_at_step(rolling.work(), *made) {
        next_on(fabric, mover, rolling, made, next, gate)?;
    }
    Ok(())
}

/// Makes the writes of the work in hand that are left, in order, and looks at the workers before each that clears an old MID word. It
/// doesn't wait: where a frame or the gate stands in the way it answers, and may be called again.
pub fn advance<G: Gate>(
    fabric: &Fabric,
    mover: &mut MoverSeat,
    rolling: &mut Rolling,
    gate: &mut G,
) -> Result<(), Halt>
    requires own { mover.old.fabric ≡ fabric.now }
    requires ready { IsReady mover.old.fabric.size (rest_of rolling.old) mover.old.mover }
    ensures fabric { mover.new.fabric ≡ mover.old.fabric }
    ensures goes_on { GoesOn mover.old.fabric.size rolling.old rolling.new mover.old.mover
        mover.new.mover }
    ensures ready { IsReady mover.old.fabric.size (rest_of rolling.new) mover.new.mover }
    ensures answer { IsAnswer mover.old.fabric.size
        (ahead_of mover.old.mover (rest_of rolling.old))
        (ahead_of mover.new.mover (rest_of rolling.new)) result }
    ensures written { mover.new.mover.written ++ rest_of rolling.new
        ≡ mover.old.mover.written ++ rest_of rolling.old }
    ensures stopped { RoseOnlyFor (G.stops gate.old) (G.stops gate.new)
        (result ≡ Err Halt.Stopped) }
    ensures asked { G.asked gate.old gate.new
        (asked_at (rest_of rolling.old) (rest_of rolling.new) result) }
{
    let mut made = rolling.step();
    let answer = writes_on(fabric, mover, rolling, &mut made, gate);
    rolling.reach(made);
    answer
}
