//! Looks at the frames of the workers.
ghost use Rattle.std.specs.Prelude.{◌≡◌, ◌≢◌, ◌<◌, ℕ, List, length, IfNone, IfSome};
ghost use Rattle.fabric_core.specs.Passing.{Passed};
ghost use Rattle.fabric_core.specs.State.{looks_of};
ghost use Rattle.fabric_core.specs.Moving.{AllPassed};
ghost use Rattle.roll_engine.specs.Writes.{Looks};
ghost use Rattle.roll_engine.specs.Answers.{IsSeen};

use fabric_words::{Fabric, MoverSeat};

// Looks at a worker that hasn't passed yet. Some: it hasn't passed still, and this is what the look gave.
#[inline(always)]
fn look_one(fabric: &Fabric, mover: &mut MoverSeat, worker: u16) -> Option<u64>
    requires own { mover.old.fabric ≡ fabric.now }
    requires low { worker < fabric.now.size.workers }
    requires full { length mover.old.mover.looks ≡ fabric.now.size.workers }
    ensures own { mover.new.fabric ≡ fabric.now }
    ensures looks { (fs : List (ℕ × ℕ)) × Looks fabric.now.size fs mover.old.mover mover.new.mover }
    ensures passed { IfNone result (Passed (looks_of mover.new.mover worker)) }
    ensures others { (w : ℕ) → w ≢ worker
        → looks_of mover.new.mover w ≡ looks_of mover.old.mover w }
    ensures seen { IfSome result (IsSeen fabric.now.size mover.old.mover mover.new.mover) }
{
    if mover.passed(worker) {
        return None;
    }
    let found = mover.look(fabric, worker);
    if mover.passed(worker) {
        return None;
    }
    Some(found)
}

/// Looks at each worker that hasn't passed yet. None: all have passed. Some: this one hasn't, and its frame is the first that was seen.
#[inline(always)]
pub(crate) fn look_all(fabric: &Fabric, mover: &mut MoverSeat) -> Option<u64>
    requires own { mover.old.fabric ≡ fabric.now }
    requires full { length mover.old.mover.looks ≡ fabric.now.size.workers }
    ensures own { mover.new.fabric ≡ fabric.now }
    ensures looks { (fs : List (ℕ × ℕ)) × Looks fabric.now.size fs mover.old.mover mover.new.mover }
    ensures passed { IfNone result (AllPassed fabric.now.size mover.new.mover) }
    ensures seen { IfSome result (IsSeen fabric.now.size mover.old.mover mover.new.mover) }
{
    for worker in 0..fabric.workers() {
        if let Some(found) = look_one(fabric, mover, worker) {
            return Some(found);
        }
    }
    None
}
