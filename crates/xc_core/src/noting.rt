//! Journals a planned change, before any register is written.
ghost use Rattle.std.specs.Prelude.{◌≡◌, ◌≢◌, ◌∷◌, [], false, slice_index, Ok, Err};
ghost use Rattle.dxc_causes.specs.Causes.{HasCause};
ghost use Rattle.dxc_causes.specs.Stops.{RoseOnlyFor};
ghost use Rattle.dxc_disk.specs.Disks.{IsSound, LeavesOnly, Spends};
ghost use Rattle.dxc_outside.specs.Stops.{the_stop};
ghost use Rattle.dxc_outside.specs.declared.gate.GatePlace.TheVariants.{Journal};
ghost use Rattle.journal_core.specs.Books.{IsReady};
ghost use Rattle.journal_core.specs.Records.{set_seal};
ghost use Rattle.xc_core.specs.Reckonings.{Past};
ghost use Rattle.xc_core.specs.Journals.{IsCounted, IsOldOrOneMore};
ghost use Rattle.xc_core.specs.Provisioners.{IsHome, ground_of};
ghost use Rattle.xc_core.specs.Begins.{IsCopied, MayNote, plan_of};
ghost use Rattle.xc_core.specs.Gathered.{NotedAs, planned_after};

use crate::keep::make_ready;
use crate::provisioner::Provisioner;
use dxc_disk::{Disk, DiskFault};
use dxc_model::Op;
use dxc_outside::{Gate, GatePlace, Stopped};
use roll_engine::Rolling;
use std::snapshot::Snapshot;

/// What came of a planned change before its first register write.
#[derive(Clone, Copy, PartialEq, Eq)]
pub enum Noted {
    /// Its record is in the journal, and no write of its work is made. The rolling is at its first one.
    Rolling,
    /// The disk failed. Matrix, registers and table are as before.
    Fault,
}

/// Journals a planned change, for a Provisioner that is as its plan left it. The gate is asked first; where it stops, the journal isn't called.
/// Fault: only where the disk's count of faults rose. Clauses alone read the rolling: it is what the work will be driven by.
///
/// Where the journal's area is full or of an earlier version, a checkpoint of the copied table is written first. It takes at most 4,600,114
/// of the disk's room.
pub fn note<D: Disk, G: Gate>(
    p: &mut Provisioner<D>,
    rolling: Snapshot<Rolling>,
    op: &Op,
    bytes: &[u8; 64],
    gate: &mut G,
) -> Result<Noted, Stopped>
    requires planned { (b : Past)
        × MayNote D.told D.state b p.old (plan_of op.now rolling.value bytes.now) }
    requires sealed { slice_index bytes.now 0 ≡ set_seal }
    ensures ground { ground_of p.new ≡ ground_of p.old }
    ensures mover { p.new.mover ≡ p.old.mover }
    ensures stopped { RoseOnlyFor (G.stops gate.old) (G.stops gate.new) (result ≡ Err the_stop) }
    ensures asked { G.asked gate.old gate.new (Journal ∷ []) }
    ensures noted { (b : Past) → let plan = plan_of op.now rolling.value bytes.now in
        MayNote D.told D.state b p.old plan
        → NotedAs D.Disk (planned_after b plan) p.old p.new result }
    // A crash at any moment leaves the changes so far, or one more.
    ensures any_moment { D.told → (b : Past)
        → MayNote D.told D.state b p.old (plan_of op.now rolling.value bytes.now) → LeavesOnly
        (D.state p.old.journal.0) (D.state p.new.journal.0) (IsOldOrOneMore b p.old.doubt op.now) }
    // What was acknowledged stays: each image continues the journal's list, or a checkpoint of the table.
    ensures acknowledged { D.told → (b : Past) → IsHome D.told D.state b p.old → IsCopied b p.old
        → LeavesOnly (D.state p.old.journal.0) (D.state p.new.journal.0)
        (IsCounted (D.state p.old.journal.0) p.old.journal.1 b.fold.table p.old.matrix) }
    ensures fault { HasCause (D.state p.old.journal.0).faults (D.state p.new.journal.0).faults
        (result ≡ Ok Noted.Fault) }
    ensures room { Spends 4_600_114 (D.state p.old.journal.0) (D.state p.new.journal.0) }
    // Where no checkpoint is due and no record is in doubt, it is a record's.
    ensures short { IsReady p.old.journal.1 × (p.old.journal.1.to_mend ≡ false)
        → Spends 69 (D.state p.old.journal.0) (D.state p.new.journal.0) }
    ensures sound { IsSound 4_600_114 (D.state p.old.journal.0) → result ≢ Ok Noted.Fault }
{
    drop(rolling);
    gate.pass(GatePlace::Journal)?;
    match make_ready(p) {
        Ok(()) => {}
        Err(DiskFault) => return Ok(Noted::Fault),
    }
    p.doubt = Some(*op);
    match p.journal.append(bytes) {
        Ok(()) => Ok(Noted::Rolling),
        Err(DiskFault) => Ok(Noted::Fault),
    }
}
