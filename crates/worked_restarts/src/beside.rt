//! A change that is driven while a worker holds its frame.
ghost use Rattle.std.specs.Prelude.{◌≡◌, IfOk, IfSome, [], Ok};
ghost use Rattle.dxc_model.specs.Operations.{IsApt};
ghost use Rattle.fabric_core.specs.Working.{CanBegin, HasOutput, Runs};
ghost use Rattle.roll_engine.specs.Rollings.{rest_of};
ghost use Rattle.xc_core.specs.States.{opening_of};
ghost use Rattle.xc_core.specs.Turns.{HasPass};
ghost use Rattle.xc_core.specs.Views.{OutFor, PlannedFor, Upon};
ghost use Rattle.craft_session.specs.Seats.{IsSeated};

use anyhow::{Result, bail};
use dxc_disk::Disk;
use dxc_model::{Cause, Op};
use dxc_num::Port;
use dxc_outside::{MemGate, Stopped};
use fabric_words::{Fabric, WorkerSeat};
use roll_engine::Halt;
use std::alloc::Global;
use std::snapshot::Snapshot;
use std::sync::Wait;
use turnstile::{Pass, Turnstile};
use worked_frames::{follow, hold};
use xc_core::turns::{self, Took};
use xc_core::{Driver, Noted, State, drive, note};

/// What mover and worker came to.
#[derive(Clone, Copy, PartialEq, Eq)]
pub struct Beside {
    /// The OUT word that the worker holds.
    pub held: Option<u64>,
    /// How the mover was held up.
    pub first: Result<(), Halt>,
    /// How often the gate was asked until then.
    pub asked: u64,
    /// The MID word and the IN word that the worker found then.
    pub followed: Option<(u64, u64)>,
    /// How the mover went on when the frame had ended.
    pub then: Result<(), Halt>,
    /// How often the gate was asked in all.
    pub asked_in_all: u64,
}

/// Begins the change in one turn of the pass, and journals it; drives it while the worker holds a frame in which it loaded OUT of the output, and again when that
/// frame has ended; and ends it in another turn.
pub fn change_beside<D: Disk + Drop, R: Wait>(
    alloc: Global,
    pass: &mut Pass,
    turns: &Turnstile<State<D>>,
    fabric: &Fabric,
    op: &Op,
    reader: &mut WorkerSeat,
    output: Port,
    rt: &R,
) -> Result<Beside>
    requires seated { IsSeated D.told D.state pass.old turns.now fabric.now }
    requires apt { IsApt (opening_of D.state turns.now.first).first.fold.table.shape op.now }
    requires own { reader.old.reader.fabric ≡ fabric.now }
    requires rests { CanBegin reader.old.reader.worker }
    ensures seated { IfOk result (λ b. IsSeated D.told D.state pass.new turns.now fabric.now) }
{
    let Took::Rolling(driver, bytes) = turns::take(pass, turns, op, rt) else {
        bail!("no work came of it");
    };
    note_beside(
        alloc, pass, turns, fabric, op, driver, &bytes, reader, output, rt,
    )
}

// Journals the planned change, and drives it.
fn note_beside<D: Disk + Drop, R: Wait>(
    alloc: Global,
    pass: &mut Pass,
    turns: &Turnstile<State<D>>,
    fabric: &Fabric,
    op: &Op,
    mut driver: Box<Driver<D>>,
    bytes: &[u8; 64],
    reader: &mut WorkerSeat,
    output: Port,
    rt: &R,
) -> Result<Beside>
    requires pass { HasPass turns.now pass.old }
    requires fabric { (opening_of D.state turns.now.first).site.fabric ≡ fabric.now }
    requires planned { Upon D.Disk turns.now pass.old
        (PlannedFor D.Disk op.now driver.value bytes.now) }
    requires own { reader.old.reader.fabric ≡ fabric.now }
    requires rests { CanBegin reader.old.reader.worker }
    ensures seated { IfOk result (λ b. IsSeated D.told D.state pass.new turns.now fabric.now) }
{
    let mut gate = MemGate::new(Vec::new(alloc));
    let out = &mut *driver;
    let rolling = Snapshot::of(&out.rolling);
    match note(&mut out.p, rolling, op, bytes, &mut gate) {
        Ok(Noted::Rolling) => {
            let held = hold(fabric, reader, output);
            Ok(drive_beside(pass, turns, fabric, op, driver, reader, held, &mut gate, rt))
        }
        Ok(Noted::Fault) => {
            turns::fail(pass, turns, op, Cause::DiskFault, driver, rt);
            bail!("its record wasn't appended");
        }
        Err(Stopped) => {
            turns::cut(pass, turns, op, driver, rt);
            bail!("the gate stopped before the journal");
        }
    }
}

fn drive_beside<D: Disk + Drop, R: Wait>(
    pass: &mut Pass,
    turns: &Turnstile<State<D>>,
    fabric: &Fabric,
    op: &Op,
    mut driver: Box<Driver<D>>,
    reader: &mut WorkerSeat,
    held: Option<u64>,
    gate: &mut MemGate,
    rt: &R,
) -> Beside
    requires pass { HasPass turns.now pass.old }
    requires fabric { (opening_of D.state turns.now.first).site.fabric ≡ fabric.now }
    requires taken { Upon D.Disk turns.now pass.old (OutFor D.Disk op.now driver.value) }
    requires own { reader.old.reader.fabric ≡ fabric.now }
    requires held { IfSome held
        (λ word. Runs reader.old.reader.worker × HasOutput reader.old.reader.worker.hold) }
    ensures seated { IsSeated D.told D.state pass.new turns.now fabric.now }
{
    let out = &mut *driver;
    let first = drive(&mut out.p, fabric, &mut out.rolling, gate);
    let asked = gate.asked();
    let followed = follow(fabric, reader, held);
    let then = drive(&mut out.p, fabric, &mut out.rolling, gate);
    let asked_in_all = gate.asked();
    bring_or_cut(pass, turns, fabric, op, driver, then, rt);
    Beside {
        held,
        first,
        asked,
        followed,
        then,
        asked_in_all,
    }
}

// Brings the Provisioner home where all writes are made, else halted.
fn bring_or_cut<D: Disk + Drop, R: Wait>(
    pass: &mut Pass,
    turns: &Turnstile<State<D>>,
    fabric: &Fabric,
    op: &Op,
    driver: Box<Driver<D>>,
    then: Result<(), Halt>,
    rt: &R,
)
    requires pass { HasPass turns.now pass.old }
    requires fabric { (opening_of D.state turns.now.first).site.fabric ≡ fabric.now }
    requires taken { Upon D.Disk turns.now pass.old (OutFor D.Disk op.now driver.value) }
    requires done { then ≡ Ok tt → rest_of driver.value.rolling ≡ [] }
    ensures { IsSeated D.told D.state pass.new turns.now fabric.now }
{
    let _ = fabric;
    match then {
        Ok(()) => turns::bring(pass, turns, op, driver, rt),
        _ => turns::cut(pass, turns, op, driver, rt),
    }
}
