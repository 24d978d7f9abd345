//! A changing command: planned in one turn, journalled and driven to its end outside of any, and taken by the table in another.
ghost use Rattle.std.specs.Prelude.{◌≡◌, [], length, IfSome, IsErr, Ok};
ghost use Rattle.dxc_causes.specs.Stops.{RoseOnlyFor};
ghost use Rattle.dxc_model.specs.Operations.{IsApt};
ghost use Rattle.roll_engine.specs.Rollings.{rest_of};
ghost use Rattle.xc_core.specs.Provisioners.{ground_of};
ghost use Rattle.xc_core.specs.Drives.{CanDrive};
ghost use Rattle.xc_core.specs.States.{opening_of};
ghost use Rattle.xc_core.specs.Turns.{HasPass, KeepsPass, SawNoneAstray};
ghost use Rattle.xc_core.specs.Views.{After, AtRest, Denies, HasSeen, OutFor, PlannedFor, Upon};
ghost use Rattle.craft_session.specs.Askings.{AskedBehind, ChangeAsked, RollAsked};
ghost use Rattle.craft_session.specs.Commands.{AsksFor, AsksOut, ChangesTo, DriveAsked, ResumesOn, RollsOn};
ghost use Rattle.craft_session.specs.Gated.{after_journal};

use crate::mend::{Mended, mend};
use dxc_disk::Disk;
use dxc_model::{Cause, Op};
use dxc_outside::{Gate, GatePlace, Stopped};
use fabric_words::Fabric;
use roll_engine::{Halt, Rolling};
use std::snapshot::Snapshot;
use std::sync::Wait;
use turnstile::{Pass, Rest, Turnstile};
use xc_core::turns::{self, Took};
use xc_core::{Driver, Noted, Provisioner, State, drive, note};

/// What came of a changing command. Where the gate stopped, the Provisioner is home, halted.
#[derive(Clone, Copy)]
pub enum Changed {
    /// All its register writes are made, and the table has it.
    Done,
    Denied(Cause),
}

/// Makes the register writes, and waits for the frames in their way. Err: the gate stopped before one of them, or before the end.
#[inline(always)]
pub fn roll<D: Disk, G: Gate, R: Wait>(
    p: &mut Provisioner<D>,
    fabric: &Fabric,
    rolling: &mut Rolling,
    gate: &mut G,
    rt: &R,
) -> Result<(), Stopped>
    requires own { p.old.mover.fabric ≡ fabric.now }
    requires rolls { CanDrive D.told D.state p.old rolling.old }
    ensures ground { ground_of p.new ≡ ground_of p.old }
    ensures journal { p.new.journal ≡ p.old.journal }
    ensures doubt { p.new.doubt ≡ p.old.doubt }
    ensures rolls { RollsOn D.Disk (p.old, rolling.old) (p.new, rolling.new) }
    ensures resumes { ResumesOn D.Disk (p.old, rolling.old) (p.new, rolling.new) }
    ensures work { rolling.new.work ≡ rolling.old.work }
    ensures done { result ≡ Ok tt → rest_of rolling.new ≡ [] }
    ensures stopped { RoseOnlyFor (G.stops gate.old) (G.stops gate.new) (IsErr result) }
    ensures asked { RollAsked (G.asked gate.old gate.new) (length (rest_of rolling.old)) result }
{
    let mut rest = Rest::new();
    for _ in rt.forever() {
        match drive(p, fabric, rolling, gate) {
            Ok(()) => return gate.pass(GatePlace::Finish),
            Err(halt) => match halt {
                Halt::InFrame(frame) => rest.again(frame, rt),
                Halt::Stopped => return Err(Stopped),
            },
        }
    }
    unreachable!()
}

/// Drives a work whose record is in the journal, and lets the table take its change.
fn drive_out<D: Disk + Drop, G: Gate, R: Wait>(
    pass: &mut Pass,
    turns: &Turnstile<State<D>>,
    fabric: &Fabric,
    op: &Op,
    driver: Box<Driver<D>>,
    gate: &mut G,
    rt: &R,
) -> Result<Changed, Stopped>
    requires pass { HasPass turns.now pass.old }
    requires fabric { (opening_of D.state turns.now.first).site.fabric ≡ fabric.now }
    requires taken { Upon D.Disk turns.now pass.old (OutFor D.Disk op.now driver.value) }
    requires unmade { driver.value.rolling.step ≡ 0 }
    ensures pass { KeepsPass turns.now pass.old pass.new }
    ensures changed { After D.Disk turns.now pass.old (ChangesTo op.now pass.new result) }
    ensures astray { SawNoneAstray D.told pass.new.seen }
    ensures stopped { RoseOnlyFor (G.stops gate.old) (G.stops gate.new) (IsErr result) }
    ensures asked { DriveAsked (G.asked gate.old gate.new) (length (rest_of driver.value.rolling))
        result }
    ensures entered { After D.Disk turns.now pass.old
        (AsksOut (after_journal (G.asked gate.old gate.new)) pass.new) }
{
    let mut driver = driver;
    let held = &mut *driver;
    match roll(&mut held.p, fabric, &mut held.rolling, gate, rt) {
        Ok(()) => {
            turns::bring(pass, turns, op, driver, rt);
            Ok(Changed::Done)
        }
        Err(Stopped) => {
            turns::cut(pass, turns, op, driver, rt);
            Err(Stopped)
        }
    }
}

/// Journals a planned change, outside of any turn, drives its work, and brings the Provisioner home whatever came of it.
fn carry_out<D: Disk + Drop, G: Gate, R: Wait>(
    pass: &mut Pass,
    turns: &Turnstile<State<D>>,
    fabric: &Fabric,
    op: &Op,
    driver: Box<Driver<D>>,
    bytes: &[u8; 64],
    gate: &mut G,
    rt: &R,
) -> Result<Changed, Stopped>
    requires pass { HasPass turns.now pass.old }
    requires fabric { (opening_of D.state turns.now.first).site.fabric ≡ fabric.now }
    requires planned { Upon D.Disk turns.now pass.old
        (PlannedFor D.Disk op.now driver.value bytes.now) }
    ensures pass { KeepsPass turns.now pass.old pass.new }
    ensures changed { After D.Disk turns.now pass.old (ChangesTo op.now pass.new result) }
    ensures astray { SawNoneAstray D.told pass.new.seen }
    ensures stopped { RoseOnlyFor (G.stops gate.old) (G.stops gate.new) (IsErr result) }
    ensures asked { AskedBehind (G.asked gate.old gate.new) [] result }
    ensures entered { After D.Disk turns.now pass.old
        (AsksOut (G.asked gate.old gate.new) pass.new) }
{
    let mut driver = driver;
    let held = &mut *driver;
    let rolling = Snapshot::of(&held.rolling);
    match note(&mut held.p, rolling, op, bytes, gate) {
        Ok(Noted::Rolling) => drive_out(pass, turns, fabric, op, driver, gate, rt),
        Ok(Noted::Fault) => {
            turns::fail(pass, turns, op, Cause::DiskFault, driver, rt);
            Ok(Changed::Denied(Cause::DiskFault))
        }
        Err(Stopped) => {
            turns::cut(pass, turns, op, driver, rt);
            Err(Stopped)
        }
    }
}

/// Stands in the line of those who change something. Who waits there for long asks the table first: what that denies doesn't wait for a slow disk or a
/// silent standby. Some: the cause; the place stands in no line then.
fn stand<D: Disk + Drop, R: Wait>(
    pass: &mut Pass,
    turns: &Turnstile<State<D>>,
    op: &Op,
    rt: &R,
) -> Option<Cause>
    requires pass { HasPass turns.now pass.old }
    requires apt { IsApt (opening_of D.state turns.now.first).first.fold.table.shape op.now }
    requires seen { Upon D.Disk turns.now pass.old AtRest }
    ensures pass { KeepsPass turns.now pass.old pass.new }
    ensures denied { After D.Disk turns.now pass.old (Denies D.Disk op.now pass.new result) }
    ensures astray { IfSome result (λ _. SawNoneAstray D.told pass.new.seen) }
{
    if turns.try_line(rt) {
        return None;
    }
    match turns::deny(pass, turns, op, rt) {
        Some(cause) => Some(cause),
        None => {
            turns.stand_in_line(rt);
            None
        }
    }
}

/// Makes a change in the line of those who change something, where the table doesn't deny it before.
pub fn change_in_line<D: Disk + Drop, G: Gate, R: Wait>(
    pass: &mut Pass,
    turns: &Turnstile<State<D>>,
    fabric: &Fabric,
    op: &Op,
    gate: &mut G,
    rt: &R,
) -> Result<Changed, Stopped>
    requires pass { HasPass turns.now pass.old }
    requires fabric { (opening_of D.state turns.now.first).site.fabric ≡ fabric.now }
    requires apt { IsApt (opening_of D.state turns.now.first).first.fold.table.shape op.now }
    requires seen { Upon D.Disk turns.now pass.old AtRest }
    ensures pass { KeepsPass turns.now pass.old pass.new }
    ensures changed { After D.Disk turns.now pass.old (ChangesTo op.now pass.new result) }
    ensures astray { SawNoneAstray D.told pass.new.seen }
    ensures stopped { RoseOnlyFor (G.stops gate.old) (G.stops gate.new) (IsErr result) }
    ensures asked { ChangeAsked (G.asked gate.old gate.new) result }
    ensures entered { After D.Disk turns.now pass.old
        (AsksFor (G.asked gate.old gate.new) pass.new) }
{
    match stand(pass, turns, op, rt) {
        Some(cause) => Ok(Changed::Denied(cause)),
        None => {
            let changed = change(pass, turns, fabric, op, gate, rt);
            turns.step_aside();
            changed
        }
    }
}

/// Makes a change of the table, and of the registers before it. Where another place has the Provisioner, or a restart is due, it tries again.
#[inline(always)]
fn change<D: Disk + Drop, G: Gate, R: Wait>(
    pass: &mut Pass,
    turns: &Turnstile<State<D>>,
    fabric: &Fabric,
    op: &Op,
    gate: &mut G,
    rt: &R,
) -> Result<Changed, Stopped>
    requires pass { HasPass turns.now pass.old }
    requires fabric { (opening_of D.state turns.now.first).site.fabric ≡ fabric.now }
    requires apt { IsApt (opening_of D.state turns.now.first).first.fold.table.shape op.now }
    requires seen { HasSeen D.Disk turns.now pass.old }
    ensures pass { KeepsPass turns.now pass.old pass.new }
    ensures changed { After D.Disk turns.now pass.old (ChangesTo op.now pass.new result) }
    ensures astray { SawNoneAstray D.told pass.new.seen }
    ensures stopped { RoseOnlyFor (G.stops gate.old) (G.stops gate.new) (IsErr result) }
    ensures asked { ChangeAsked (G.asked gate.old gate.new) result }
    ensures entered { After D.Disk turns.now pass.old
        (AsksFor (G.asked gate.old gate.new) pass.new) }
{
    match turns::take(pass, turns, op, rt) {
        Took::Rolling(driver, bytes) => {
            carry_out(pass, turns, fabric, op, driver, &bytes, gate, rt)
        }
        Took::Denied(cause) => Ok(Changed::Denied(cause)),
        Took::Halted | Took::Waits => change_again(pass, turns, fabric, op, gate, rt),
    }
}

// The same as often as it takes: it tries again while another place has the Provisioner, and makes a restart first where one is due.
#[inline(never)]
fn change_again<D: Disk + Drop, G: Gate, R: Wait>(
    pass: &mut Pass,
    turns: &Turnstile<State<D>>,
    fabric: &Fabric,
    op: &Op,
    gate: &mut G,
    rt: &R,
) -> Result<Changed, Stopped>
    requires pass { HasPass turns.now pass.old }
    requires fabric { (opening_of D.state turns.now.first).site.fabric ≡ fabric.now }
    requires apt { IsApt (opening_of D.state turns.now.first).first.fold.table.shape op.now }
    requires seen { HasSeen D.Disk turns.now pass.old }
    ensures pass { KeepsPass turns.now pass.old pass.new }
    ensures changed { After D.Disk turns.now pass.old (ChangesTo op.now pass.new result) }
    ensures astray { SawNoneAstray D.told pass.new.seen }
    ensures stopped { RoseOnlyFor (G.stops gate.old) (G.stops gate.new) (IsErr result) }
    ensures asked { ChangeAsked (G.asked gate.old gate.new) result }
    ensures entered { After D.Disk turns.now pass.old
        (AsksFor (G.asked gate.old gate.new) pass.new) }
{
    let mut rest = Rest::new();
    for _ in rt.forever() {
        match turns::take(pass, turns, op, rt) {
            Took::Rolling(driver, bytes) => {
                return carry_out(pass, turns, fabric, op, driver, &bytes, gate, rt);
            }
            Took::Denied(cause) => return Ok(Changed::Denied(cause)),
            Took::Halted => match mend(pass, turns, fabric, op, gate, rt)? {
                Mended::Ready | Mended::Waits => {}
                Mended::Denied(cause) => return Ok(Changed::Denied(cause)),
            },
            Took::Waits => rest.again(0, rt),
        }
    }
    unreachable!()
}
