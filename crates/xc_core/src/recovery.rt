//! How a controller goes on where a stop came in the middle of a work.
ghost use Rattle.std.specs.Prelude.{◌≡◌, ◌≢◌, ◌≤◌, ◌<◌, ◌^◌, ◌+◌, ◌↔◌, IsTrue, ℕ, [], ◌∷◌, List, length, IfOk, IfSome, IsErrOf, Option, Some, Ok, Err};
ghost use Rattle.dxc_causes.specs.Causes.{HasCause};
ghost use Rattle.dxc_causes.specs.Stops.{RoseOnlyFor};
ghost use Rattle.dxc_disk.specs.Disks.{IsSound, LeavesOnly, Spends};
ghost use Rattle.dxc_model.specs.declared.op.Change.{Change};
ghost use Rattle.dxc_model.specs.Steps.{with_change};
ghost use Rattle.dxc_model.specs.Verdicts.{MayTake};
ghost use Rattle.dxc_outside.specs.Stops.{the_stop};
ghost use Rattle.dxc_outside.specs.declared.gate.GatePlace.TheVariants.{Journal};
ghost use Rattle.paull_matrix.specs.Colourings.{Colouring};
ghost use Rattle.paull_chain.specs.Works.{OpsMade};
ghost use Rattle.roll_engine.specs.Rollings.{RollingAt};
ghost use Rattle.xc_recovery.specs.Stages.{IsLastWork, IsStage};
ghost use Rattle.roll_plan.specs.Works.{writes_of};
ghost use Rattle.xc_core.specs.Reckonings.{Past};
ghost use Rattle.xc_core.specs.Provisioners.{ground_of};
ghost use Rattle.xc_core.specs.Restarts.{IsHalted, number_with, writes_left};
ghost use Rattle.journal_core.specs.Turns.{Keeps};
ghost use Rattle.xc_core.specs.Journals.{IsOldOrDoubted};
ghost use Rattle.xc_core.specs.Recoveries.{ReadIs, Reads, RecoveredIs};
ghost use Rattle.xc_core.specs.Endings.{IfCold, IfWarm, reports_with, with_switches};
ghost use Rattle.xc_core.specs.Gathered.{EndsFor, RecoveredAs, RecoversFor, RejoinsFor, RestAs, ResumedAs, ResumesFor, half_made, last_work, switches_due, taken_up};

use crate::provisioner::Provisioner;
use crate::replayed::{Given, compare};
use crate::state::State;
use dbchg_reports::Reports;
use dxc_disk::{Disk, DiskFault};
use dxc_model::{Change, Table};
use dxc_outside::{Gate, GatePlace, Stopped};
use fabric_words::{Fabric, MoverSeat, Phase};
use paull_chain::{apply_work, undo_work};
use paull_matrix::Matrix;
use roll_engine::Rolling;
use roll_plan::Work;
use std::mem;
use xc_recovery::{ReplayFault, Stage, replay, stage_of, switches_left};

/// How a controller can go on.
#[derive(Drop)]
pub enum Recovered {
    /// The registers are at a stage of the last record's work: its rest is to be made, and each leg goes on being carried.
    Warm(Rolling),
    /// They aren't, or another number of switches was made: all is to be parted and joined anew.
    Cold(Rolling),
    /// The record of this number is bad; or so many records were read, and they give neither what is known nor that with the change in
    /// doubt.
    Astray(u32),
    /// The disk failed.
    Fault,
}

// The rest of a work of which so many writes are made, if so many switches will then have been made; else a cold rolling, where the mover
// is in this phase.
fn rest(work: Work, made: usize, phase: Phase, now: u64, switches: u64) -> Recovered
    requires few { now ≤ 2 ^ 48 }
    ensures { RestAs (half_made work made) phase (switches_due now switches) result }
{
    if now + switches_left(&work, made) == switches {
        Recovered::Warm(Rolling::of(work, made))
    } else {
        Recovered::Cold(Rolling::cold_from(phase))
    }
}

/// The stage of the last record's work at which the registers are. It led to the matrix.
pub(crate) fn stage_on(
    matrix: &mut Matrix,
    mover: &mut MoverSeat,
    fabric: &Fabric,
    last: &Work,
) -> Stage
    requires own { mover.old.fabric ≡ fabric.now }
    requires shape { matrix.old.shape ≡ fabric.now.size.shape }
    requires made { (before : Colouring) × IsLastWork before last.now.ops.items matrix.old }
    ensures matrix { matrix.new ≡ matrix.old }
    ensures mover { mover.new ≡ mover.old }
    ensures stage { (before : Colouring) → IsLastWork before last.now.ops.items matrix.old
        → IsStage fabric.now.size before (writes_of last.now) mover.old.mover result }
{
    undo_work(matrix, last);
    let stage = stage_of(fabric, mover, matrix, last);
    apply_work(matrix, last);
    stage
}

// Where the registers are on the last record's work, which led to the matrix, if so many switches will then have been made.
fn resume(
    matrix: &mut Matrix,
    mover: &mut MoverSeat,
    fabric: &Fabric,
    work: Work,
    switches: u64,
) -> Recovered
    requires own { mover.old.fabric ≡ fabric.now }
    requires shape { matrix.old.shape ≡ fabric.now.size.shape }
    requires made { (before : Colouring) × IsLastWork before work.ops.items matrix.old }
    requires few { length mover.old.mover.log ≤ 2 ^ 48 }
    ensures matrix { matrix.new ≡ matrix.old }
    ensures mover { mover.new ≡ mover.old }
    ensures resumed { ResumedAs fabric.now.size mover.old.mover
        (last_work work.ops.items matrix.old switches) result }
{
    match stage_on(matrix, mover, fabric, &work) {
        Stage::At(made) => rest(work, made, mover.phase(), mover.switches(), switches),
        Stage::Strange => Recovered::Cold(Rolling::cold_from(mover.phase())),
    }
}

// Reads the journal anew, and replays it into the matrix and the table beside the state's.
fn read<D: Disk>(p: &mut Provisioner<D>) -> Result<Work, ReplayFault>
    requires halted { (b : Past) × IsHalted D.told D.state b p.old }
    ensures others { p.new ≡ record p.old { journal = p.new.journal; replayed = p.new.replayed } }
    ensures ground { ground_of p.new ≡ ground_of p.old }
    ensures copy { p.new.replayed.expected ≡ p.old.replayed.expected }
    ensures halted { (b : Past) → IsHalted D.told D.state b p.old
        → IsHalted D.told D.state b p.new }
    ensures reads { (b : Past) → IsHalted D.told D.state b p.old
        → ReadIs D.told D.state b p.new result }
    ensures good { D.told → (i : ℕ) → result ≢ Err (ReplayFault.BadRecord i) }
    ensures any_moment { D.told → (b : Past) → IsHalted D.told D.state b p.old → LeavesOnly
        (D.state p.old.journal.0) (D.state p.new.journal.0) (IsOldOrDoubted b p.old.doubt) }
    ensures acknowledged { D.told
        → Keeps (D.state p.old.journal.0) (D.state p.new.journal.0) p.old.journal.1 }
    ensures cause { HasCause (D.state p.old.journal.0).faults (D.state p.new.journal.0).faults
        (IsErrOf result ReplayFault.Disk) }
    ensures room { Spends 131_079 (D.state p.old.journal.0) (D.state p.new.journal.0) }
    ensures sound { IsSound 131_079 (D.state p.old.journal.0) → IsErrOf result ReplayFault.Disk
        → ⊥ }
{
    match p.journal.reread() {
        Ok(()) => {}
        Err(DiskFault) => return Err(ReplayFault::Disk),
    }
    replay(
        &mut p.journal,
        &mut p.replayed.matrix,
        &mut p.replayed.table,
    )
}

// How the registers can go on with what was read, beside the copy of the state's table.
fn go_on<D: Disk>(p: &mut Provisioner<D>, fabric: &Fabric, work: Work) -> Recovered
    requires own { p.old.mover.fabric ≡ fabric.now }
    requires reads { (b : Past) × Reads D.told D.state b p.old work.ops.items
        × (p.old.replayed.expected ≡ b.fold.table) }
    ensures others { p.new ≡ record p.old { replayed = p.new.replayed } }
    ensures halted { (b : Past) → Reads D.told D.state b p.old work.ops.items
        → p.old.replayed.expected ≡ b.fold.table → IsHalted D.told D.state b p.new }
    ensures recovered { (b : Past) → Reads D.told D.state b p.old work.ops.items
        → p.old.replayed.expected ≡ b.fold.table → RecoveredIs D.told D.state b p.new result }
    ensures resumes { (b : Past) → Reads D.told D.state b p.old work.ops.items
        → p.old.replayed.expected ≡ b.fold.table → IfWarm result
        (λ r. (lacking : Option Change) × (g : Past)
        × ResumesFor D.Disk (taken_up b lacking g) p.new r) }
    ensures rejoins { (b : Past) → Reads D.told D.state b p.old work.ops.items
        → p.old.replayed.expected ≡ b.fold.table → IfCold result
        (λ r. (lacking : Option Change) × (g : Past)
        × RejoinsFor D.Disk (taken_up b lacking g) p.new r) }
    ensures astray { D.told → (i : ℕ) → result ≢ Recovered.Astray i }
    ensures warm { D.told → (r : RollingAt) → result ≢ Recovered.Cold r }
    ensures answered { result ≢ Recovered.Fault }
{
    match compare(&mut p.replayed, &mut p.matrix, p.doubt, p.spent) {
        None => Recovered::Astray(p.journal.count()),
        Some(Given { lacking, switches }) => {
            p.replayed.lacking = lacking;
            resume(&mut p.replayed.matrix, &mut p.mover, fabric, work, switches)
        }
    }
}

/// Reads the journal anew, and finds how the registers can go on, for a Provisioner that is halted and has a copy of the
/// state's table.
///
/// The gate is asked first; where it stops, the journal isn't called. No register is written. It takes at most 131,079 of the disk's room.
pub fn recover<D: Disk, G: Gate>(
    p: &mut Provisioner<D>,
    fabric: &Fabric,
    gate: &mut G,
) -> Result<Recovered, Stopped>
    requires own { p.old.mover.fabric ≡ fabric.now }
    requires halted { (b : Past) × IsHalted D.told D.state b p.old
        × (p.old.replayed.expected ≡ b.fold.table) }
    ensures ground { ground_of p.new ≡ ground_of p.old }
    ensures others { p.new ≡ record p.old { journal = p.new.journal; replayed = p.new.replayed } }
    ensures halted { (b : Past) → IsHalted D.told D.state b p.old
        → p.old.replayed.expected ≡ b.fold.table → IsHalted D.told D.state b p.new }
    ensures recovered { (b : Past) → IsHalted D.told D.state b p.old
        → p.old.replayed.expected ≡ b.fold.table → RecoveredAs D.Disk b p.old p.new result }
    ensures resumes { (b : Past) → IsHalted D.told D.state b p.old
        → p.old.replayed.expected ≡ b.fold.table → IfOk result (λ found. IfWarm found
        (λ r. (lacking : Option Change) × (g : Past)
        × ResumesFor D.Disk (taken_up b lacking g) p.new r)) }
    ensures rejoins { (b : Past) → IsHalted D.told D.state b p.old
        → p.old.replayed.expected ≡ b.fold.table → IfOk result (λ found. IfCold found
        (λ r. (lacking : Option Change) × (g : Past)
        × RejoinsFor D.Disk (taken_up b lacking g) p.new r)) }
    // A disk that tells its content is never astray, and the registers are at a stage of what it tells.
    ensures astray { D.told → (i : ℕ) → result ≢ Ok (Recovered.Astray i) }
    ensures warm { D.told → (r : RollingAt) → result ≢ Ok (Recovered.Cold r) }
    ensures stopped { RoseOnlyFor (G.stops gate.old) (G.stops gate.new) (result ≡ Err the_stop) }
    ensures asked { G.asked gate.old gate.new (Journal ∷ []) }
    ensures any_moment { D.told → (b : Past) → IsHalted D.told D.state b p.old → LeavesOnly
        (D.state p.old.journal.0) (D.state p.new.journal.0) (IsOldOrDoubted b p.old.doubt) }
    ensures acknowledged { D.told
        → Keeps (D.state p.old.journal.0) (D.state p.new.journal.0) p.old.journal.1 }
    ensures fault { HasCause (D.state p.old.journal.0).faults (D.state p.new.journal.0).faults
        (result ≡ Ok Recovered.Fault) }
    ensures room { Spends 131_079 (D.state p.old.journal.0) (D.state p.new.journal.0) }
    ensures sound { IsSound 131_079 (D.state p.old.journal.0) → result ≢ Ok Recovered.Fault }
{
    gate.pass(GatePlace::Journal)?;
    match read(p) {
        Ok(work) => Ok(go_on(p, fabric, work)),
        Err(ReplayFault::BadRecord(i)) => Ok(Recovered::Astray(i)),
        Err(ReplayFault::Disk) => Ok(Recovered::Fault),
    }
}

/// Takes up what the journal holds, once all register writes of a recovery are made: table and reports get the change that the table
/// lacked, if it lacked one, which is the answer, and the Provisioner is no longer halted. It is the one of that recovery, and isn't home.
pub fn end_recovery<D: Disk>(
    state: &mut State<D>,
    p: &mut Provisioner<D>,
    rolling: &Rolling,
) -> Option<Change>
    requires recovers { (b : Past) × (lacking : Option Change) × (g : Past)
        × RecoversFor D.Disk (taken_up b lacking g) p.old rolling.now
        × (b.fold.table ≡ state.old.table) }
    requires done { writes_left p.old rolling.now ≡ [] }
    requires counted { state.old.reports.newest ≡ p.old.changes }
    ensures ground { ground_of p.new ≡ ground_of p.old }
    ensures journal { p.new.journal ≡ p.old.journal }
    ensures mover { p.new.mover ≡ p.old.mover }
    ensures state { state.new ≡ record state.old
        { table = state.new.table; reports = reports_with result state.old.reports } }
    ensures ends { (b : Past) → (lacking : Option Change) → (g : Past)
        → ResumesFor D.Disk (taken_up b lacking g) p.old rolling.now
        → b.fold.table ≡ state.old.table
        → EndsFor D.Disk (taken_up b lacking g) state.new.table p.new result }
    // A cold one makes other switches: it ends with as many as were made.
    ensures ends_cold { (b : Past) → (lacking : Option Change) → (g : Past)
        → RejoinsFor D.Disk (taken_up b lacking g) p.old rolling.now
        → b.fold.table ≡ state.old.table → EndsFor D.Disk
        (taken_up b lacking (with_switches (length p.old.mover.mover.log) g))
        state.new.table p.new result }
{
    let _ = rolling;
    mem::swap(&mut p.matrix, &mut p.replayed.matrix);
    take_up(&mut state.table, p.replayed.lacking);
    report(&mut state.reports, p.replayed.lacking);
    p.changes = changes_with(p.changes, p.replayed.lacking);
    p.spent = p.mover.switches();
    p.doubt = None;
    p.halted = false;
    p.replayed.lacking
}

// Makes a change in the table, if there is one.
fn take_up(table: &mut Table, lacking: Option<Change>)
    requires { IfSome lacking (MayTake table.old) }
    ensures { table.new ≡ with_change table.old lacking }
{
    if let Some(change) = lacking {
        table.take(change);
    }
}

// Reports a change, if there is one.
fn report(reports: &mut Reports, lacking: Option<Change>)
    requires { IfSome lacking (λ _. reports.old.newest < 2 ^ 48) }
    ensures { reports.new ≡ reports_with lacking reports.old }
{
    if let Some(change) = lacking {
        reports.push(change);
    }
}

// So many changes, and one more if there is one.
fn changes_with(changes: u64, more: Option<Change>) -> u64
    requires { IfSome more (λ _. changes < 2 ^ 48) }
    ensures { result ≡ number_with changes more }
{
    match more {
        Some(_) => changes + 1,
        None => changes,
    }
}
