//! One register write.
ghost use Rattle.std.specs.Prelude.{◌≡◌, [], ◌∷◌, ℕ, List, IfNone, IfSome, Err};
ghost use Rattle.dxc_causes.specs.Stops.{RoseOnlyFor};
ghost use Rattle.dxc_num.specs.declared.register.WriteKind.TheVariants.{ClearMid};
ghost use Rattle.fabric_core.specs.State.{IsSize};
ghost use Rattle.fabric_core.specs.Owned.{IsMoverRuled};
ghost use Rattle.fabric_core.specs.Moving.{AllPassed};
ghost use Rattle.roll_engine.specs.Allowed.{CanMake};
ghost use Rattle.roll_engine.specs.Answers.{IsSeen, StepIs, asked_at_step};
ghost use Rattle.roll_engine.specs.Courses.{IsOld, IsReady};
ghost use Rattle.roll_engine.specs.Writes.{Looks, Makes};

use crate::halt::Halt;
use crate::looks::look_all;
use dxc_num::{RegWrite, WriteKind};
use dxc_outside::Gate;
use fabric_words::{Fabric, MoverSeat, Permit, Phase};

// Makes a write, which may be made.
#[inline(always)]
fn make(fabric: &Fabric, mover: &mut MoverSeat, write: RegWrite, permit: &Permit)
    requires own { mover.old.fabric ≡ fabric.now }
    requires permitted { permit.now ≡ mover.old.mover.written }
    requires can { CanMake mover.old.fabric.size.shape write mover.old.mover }
    requires passed { write.kind ≡ ClearMid → IsOld mover.old.mover.phase
        → AllPassed mover.old.fabric.size mover.old.mover }
    ensures own { mover.new.fabric ≡ fabric.now }
    ensures made { Makes mover.old.fabric.size write mover.old.mover mover.new.mover }
{
    match write.kind {
        WriteKind::SetIn => mover.set_in(fabric, write.leg, write.middle, permit),
        WriteKind::SetMid => mover.set_mid(fabric, permit),
        WriteKind::SwitchOut => mover.switch_out(fabric, permit),
        WriteKind::ClearOut => mover.clear_out(fabric, write.leg, permit),
        WriteKind::ClearMid => mover.clear_mid(fabric, permit),
        WriteKind::ClearIn => mover.clear_in(fabric, permit),
    }
}

// Looks at the workers where the write clears an old MID word. Some: a frame that may still follow it.
#[inline(always)]
fn clear_way(fabric: &Fabric, mover: &mut MoverSeat, kind: WriteKind) -> Option<u64>
    requires own { mover.old.fabric ≡ fabric.now }
    ensures fabric { mover.new.fabric ≡ mover.old.fabric }
    ensures sized { IsSize mover.old.fabric.size }
    ensures ruled { IsMoverRuled mover.old.fabric.size mover.old.mover }
    ensures looks { (fs : List (ℕ × ℕ))
        × Looks mover.old.fabric.size fs mover.old.mover mover.new.mover }
    ensures passed { IfNone result (kind ≡ ClearMid → IsOld mover.old.mover.phase
        → AllPassed mover.old.fabric.size mover.new.mover) }
    ensures seen { IfSome result (λ f. (kind ≡ ClearMid) × IsOld mover.old.mover.phase
        × IsSeen mover.old.fabric.size mover.old.mover mover.new.mover f) }
{
    match (kind, mover.phase()) {
        (WriteKind::ClearMid, Phase::Old { .. }) => look_all(fabric, mover),
        _ => None,
    }
}

/// Makes a write, where neither a frame nor the gate stands in its way.
#[inline(always)]
pub(crate) fn step_on<G: Gate>(
    fabric: &Fabric,
    mover: &mut MoverSeat,
    write: RegWrite,
    gate: &mut G,
) -> Result<(), Halt>
    requires own { mover.old.fabric ≡ fabric.now }
    requires ready { IsReady mover.old.fabric.size (write ∷ []) mover.old.mover }
    ensures fabric { mover.new.fabric ≡ mover.old.fabric }
    ensures step { StepIs mover.old.fabric.size write mover.old.mover mover.new.mover result }
    ensures stopped { RoseOnlyFor (G.stops gate.old) (G.stops gate.new)
        (result ≡ Err Halt.Stopped) }
    ensures asked { G.asked gate.old gate.new (asked_at_step result) }
{
    if let Some(frame) = clear_way(fabric, mover, write.kind) {
        return Err(Halt::InFrame(frame));
    }
    let permit = mover.ask(gate)?;
    make(fabric, mover, write, &permit);
    Ok(())
}
