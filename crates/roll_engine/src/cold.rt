//! All legs of a matrix, joined one by one on a fabric on which first all others are parted.
ghost use Rattle.std.specs.Prelude.{◌≡◌, ◌≢◌, ◌++◌, ℕ, Ok, Err};
ghost use Rattle.dxc_causes.specs.Stops.{RoseOnlyFor};
ghost use Rattle.roll_engine.specs.Stages.{IsAtRestOn};
ghost use Rattle.roll_engine.specs.Answers.{Advances, IsAnswer, ahead_of, asked_at};
ghost use Rattle.roll_engine.specs.Cold.{IsCold, IsColdAt, left_of};
ghost use Rattle.roll_engine.specs.Leading.{IsColdLeading};

use crate::halt::Halt;
use crate::rolling::Rolling;
use crate::run::advance;
use dxc_outside::Gate;
use fabric_words::{Fabric, MoverSeat};
use paull_matrix::Matrix;

/// Makes the writes of a cold rolling that are left, each work by `advance`: the end of the path that the mover was about, the parts of
/// the legs that stand, in order of output, and the joins of this matrix's legs, in order of output. It doesn't wait: where a frame or
/// the gate stands in the way it answers, and may be called again. No frame stands in the way of joins.
pub fn advance_cold<G: Gate>(
    matrix: &Matrix,
    fabric: &Fabric,
    mover: &mut MoverSeat,
    rolling: &mut Rolling,
    gate: &mut G,
) -> Result<(), Halt>
    requires own { mover.old.fabric ≡ fabric.now }
    requires leading { IsColdLeading mover.old.fabric.size matrix.now rolling.old mover.old.mover }
    ensures fabric { mover.new.fabric ≡ mover.old.fabric }
    ensures advances { Advances mover.old.fabric.size
        (left_of matrix.now mover.old.mover rolling.old)
        (left_of matrix.now mover.new.mover rolling.new) mover.old.mover mover.new.mover }
    ensures leading { IsColdLeading mover.old.fabric.size matrix.now rolling.new mover.new.mover }
    ensures written { mover.new.mover.written ++ left_of matrix.now mover.new.mover rolling.new
        ≡ mover.old.mover.written ++ left_of matrix.now mover.old.mover rolling.old }
    ensures kept { IsCold rolling.old → IsCold rolling.new }
    ensures answer { IsAnswer mover.old.fabric.size
        (ahead_of mover.old.mover (left_of matrix.now mover.old.mover rolling.old))
        (ahead_of mover.new.mover (left_of matrix.now mover.new.mover rolling.new)) result }
    ensures done { result ≡ Ok tt
        → IsAtRestOn mover.old.fabric.size matrix.now mover.new.mover }
    ensures cold { IsColdAt mover.old.fabric.size matrix.now rolling.old mover.old.mover
        → IsColdAt mover.old.fabric.size matrix.now rolling.new mover.new.mover }
    ensures joins { IsColdAt mover.old.fabric.size matrix.now rolling.old mover.old.mover → (f : ℕ)
        → result ≢ Err (Halt.InFrame f) }
    ensures stopped { RoseOnlyFor (G.stops gate.old) (G.stops gate.new)
        (result ≡ Err Halt.Stopped) }
    ensures asked { G.asked gate.old gate.new
        (asked_at (left_of matrix.now mover.old.mover rolling.old)
        (left_of matrix.now mover.new.mover rolling.new) result) }
{
    loop {
        advance(fabric, mover, rolling, gate)?;
        if !rolling.take_next(matrix, fabric, mover) {
            return Ok(());
        }
    }
}
