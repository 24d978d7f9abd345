//! A restart: begun in one turn, its journal read and the rest of a work driven outside of any, and ended in another.
ghost use Rattle.std.specs.Prelude.{◌≡◌, length, IsErr};
ghost use Rattle.dxc_causes.specs.Stops.{RoseOnlyFor};
ghost use Rattle.dxc_model.specs.Steps.{IsDriven};
ghost use Rattle.xc_core.specs.States.{opening_of};
ghost use Rattle.xc_core.specs.Turns.{HasPass, KeepsPass, SawNoneAstray};
ghost use Rattle.xc_core.specs.Views.{After, HasSeen, HeldFor, OutToRestart, Upon};
ghost use Rattle.roll_engine.specs.Rollings.{rest_of};
ghost use Rattle.craft_session.specs.Askings.{MendAsked, WarmAsked};
ghost use Rattle.craft_session.specs.Commands.{AsksFor, AsksOut, MendsTo, RestAsked, RestartsTo};
ghost use Rattle.craft_session.specs.Gated.{after_journal};

use crate::change::{Changed, roll};
use dxc_disk::Disk;
use dxc_model::{Cause, Op};
use dxc_outside::{Gate, Stopped};
use fabric_words::Fabric;
use std::sync::Wait;
use turnstile::{Pass, Rest, Turnstile};
use xc_core::restarts::{Held, cut_restart, end_restart, hold};
use xc_core::{Driver, Reread, State, read_anew, turns};

/// What came of turns in which a restart was to be made. Where the gate stopped, the Provisioner is home, halted.
#[derive(Clone, Copy)]
pub enum Mended {
    /// It was made. The Provisioner is home and ready.
    Ready,
    /// The disk failed, or the journal reads otherwise than it was written. The Provisioner is home.
    Denied(Cause),
    /// Another place has the Provisioner; or none is due any more.
    Waits,
}

/// Drives a restart that has begun, and ends it.
fn resume<D: Disk + Drop, G: Gate, R: Wait>(
    pass: &mut Pass,
    turns: &Turnstile<State<D>>,
    fabric: &Fabric,
    asked: &Op,
    driver: Box<Driver<D>>,
    gate: &mut G,
    rt: &R,
) -> Result<Mended, Stopped>
    requires pass { HasPass turns.now pass.old }
    requires fabric { (opening_of D.state turns.now.first).site.fabric ≡ fabric.now }
    requires restart { Upon D.Disk turns.now pass.old (OutToRestart D.Disk asked.now driver.value) }
    ensures pass { KeepsPass turns.now pass.old pass.new }
    ensures mended { After D.Disk turns.now pass.old (MendsTo asked.now pass.new result) }
    ensures astray { SawNoneAstray D.told pass.new.seen }
    ensures stopped { RoseOnlyFor (G.stops gate.old) (G.stops gate.new) (IsErr result) }
    ensures asked { RestAsked (G.asked gate.old gate.new) (length (rest_of driver.value.rolling))
        result }
    ensures entered { After D.Disk turns.now pass.old
        (AsksOut (after_journal (G.asked gate.old gate.new)) pass.new) }
{
    let mut driver = driver;
    let held = &mut *driver;
    match roll(&mut held.p, fabric, &mut held.rolling, gate, rt) {
        Ok(()) => {
            end_restart(pass, turns, asked, driver, rt);
            Ok(Mended::Ready)
        }
        Err(Stopped) => {
            cut_restart(pass, turns, asked, driver, rt);
            Err(Stopped)
        }
    }
}

/// Settles and reads the journal of a Provisioner that was taken out for a restart, outside of any turn, drives the rest of its last work, and
/// brings it home whatever came of it.
fn go_on<D: Disk + Drop, G: Gate, R: Wait>(
    pass: &mut Pass,
    turns: &Turnstile<State<D>>,
    fabric: &Fabric,
    asked: &Op,
    driver: Box<Driver<D>>,
    gate: &mut G,
    rt: &R,
) -> Result<Mended, Stopped>
    requires pass { HasPass turns.now pass.old }
    requires fabric { (opening_of D.state turns.now.first).site.fabric ≡ fabric.now }
    requires asked { IsDriven asked.now }
    requires held { Upon D.Disk turns.now pass.old (HeldFor D.Disk asked.now driver.value) }
    ensures pass { KeepsPass turns.now pass.old pass.new }
    ensures mended { After D.Disk turns.now pass.old (MendsTo asked.now pass.new result) }
    ensures astray { SawNoneAstray D.told pass.new.seen }
    ensures stopped { RoseOnlyFor (G.stops gate.old) (G.stops gate.new) (IsErr result) }
    ensures asked { MendAsked (G.asked gate.old gate.new) result }
    ensures entered { After D.Disk turns.now pass.old
        (AsksOut (G.asked gate.old gate.new) pass.new) }
{
    let mut driver = driver;
    let held = &mut *driver;
    match read_anew(&mut held.p, fabric, asked, gate) {
        Ok(Reread::Warm(rolling)) => {
            held.rolling = rolling;
            resume(pass, turns, fabric, asked, driver, gate, rt)
        }
        Ok(Reread::Failed(cause)) => {
            turns::fail(pass, turns, asked, cause, driver, rt);
            Ok(Mended::Denied(cause))
        }
        Err(Stopped) => {
            cut_restart(pass, turns, asked, driver, rt);
            Err(Stopped)
        }
    }
}

/// Tries to make a restart, for INIT-SYS or for a changing operation that found one due.
pub fn mend<D: Disk + Drop, G: Gate, R: Wait>(
    pass: &mut Pass,
    turns: &Turnstile<State<D>>,
    fabric: &Fabric,
    asked: &Op,
    gate: &mut G,
    rt: &R,
) -> Result<Mended, Stopped>
    requires pass { HasPass turns.now pass.old }
    requires fabric { (opening_of D.state turns.now.first).site.fabric ≡ fabric.now }
    requires asked { IsDriven asked.now }
    requires seen { HasSeen D.Disk turns.now pass.old }
    ensures pass { KeepsPass turns.now pass.old pass.new }
    ensures mended { After D.Disk turns.now pass.old (MendsTo asked.now pass.new result) }
    ensures astray { SawNoneAstray D.told pass.new.seen }
    ensures stopped { RoseOnlyFor (G.stops gate.old) (G.stops gate.new) (IsErr result) }
    ensures asked { MendAsked (G.asked gate.old gate.new) result }
    ensures entered { After D.Disk turns.now pass.old
        (AsksFor (G.asked gate.old gate.new) pass.new) }
{
    match hold(pass, turns, asked, rt) {
        Held::Held(driver) => go_on(pass, turns, fabric, asked, driver, gate, rt),
        Held::Waits => Ok(Mended::Waits),
    }
}

/// Makes the restart of INIT-SYS. It tries again while another place has the Provisioner.
#[inline(never)]
pub fn warm_restart<D: Disk + Drop, G: Gate, R: Wait>(
    pass: &mut Pass,
    turns: &Turnstile<State<D>>,
    fabric: &Fabric,
    gate: &mut G,
    rt: &R,
) -> Result<Changed, Stopped>
    requires pass { HasPass turns.now pass.old }
    requires fabric { (opening_of D.state turns.now.first).site.fabric ≡ fabric.now }
    requires seen { HasSeen D.Disk turns.now pass.old }
    ensures pass { KeepsPass turns.now pass.old pass.new }
    ensures restarted { After D.Disk turns.now pass.old (RestartsTo pass.new result) }
    ensures astray { SawNoneAstray D.told pass.new.seen }
    ensures stopped { RoseOnlyFor (G.stops gate.old) (G.stops gate.new) (IsErr result) }
    ensures asked { WarmAsked (G.asked gate.old gate.new) result }
    ensures entered { After D.Disk turns.now pass.old
        (AsksFor (G.asked gate.old gate.new) pass.new) }
{
    let mut rest = Rest::new();
    for _ in rt.forever() {
        match mend(pass, turns, fabric, &Op::Restart, gate, rt)? {
            Mended::Ready => return Ok(Changed::Done),
            Mended::Denied(cause) => return Ok(Changed::Denied(cause)),
            Mended::Waits => rest.again(0, rt),
        }
    }
    unreachable!()
}
