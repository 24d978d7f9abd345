//! What a restart does with the state within its turns, and with the Provisioner between them.
ghost use Rattle.std.specs.Prelude.{◌≡◌, ◌⊎◌, ◌++◌, ◌∷◌, ◌↔◌, List, [], ℕ, true, false, IsTrue, IsErr, Option, OnErr, OnOk, Some, Err};
ghost use Rattle.dxc_causes.specs.Causes.{HasCause};
ghost use Rattle.dxc_causes.specs.Stops.{RoseOnlyFor};
ghost use Rattle.dxc_disk.specs.Disks.{LeavesOnly, Spends};
ghost use Rattle.dxc_model.specs.declared.entry.Entry.{Entry};
ghost use Rattle.dxc_model.specs.declared.entry.Outcome.TheVariants.{Restarted};
ghost use Rattle.dxc_model.specs.declared.op.Op.{Op};
ghost use Rattle.dxc_model.specs.declared.op.Op.TheVariants.{Restart};
ghost use Rattle.dxc_model.specs.Steps.{IsDriven};
ghost use Rattle.dxc_outside.specs.Stops.{the_stop};
ghost use Rattle.roll_engine.specs.Rollings.{rest_of};
ghost use Rattle.xc_core.specs.Reckonings.{Past};
ghost use Rattle.xc_core.specs.Journals.{IsOldOrDoubted};
ghost use Rattle.xc_core.specs.Provisioners.{HasNoDoubt, IsHome, StillDoubts, ground_of};
ghost use Rattle.xc_core.specs.Restarts.{IsHalted};
ghost use Rattle.xc_core.specs.Askings.{RereadAsked};
ghost use Rattle.xc_core.specs.Seeing.{entry};
ghost use Rattle.xc_core.specs.Gathered.{IsOutForRestart, outing_of};
ghost use Rattle.xc_core.specs.States.{Opening, StandsFor};
ghost use Rattle.xc_core.specs.Turns.{TakesUpOfStop, held_entry_of as entry_for, journal_held, journal_home};
ghost use Rattle.xc_core.specs.Views.{CutsRest, CutsUnread, HoldsOut, IsHeld, Rereads};

use crate::provisioner::{Driver, Provisioner, halt, settle};
use crate::recovery::{Recovered, end_recovery, recover};
use crate::restarts::Held;
use crate::state::{Errand, State};
use dxc_disk::{Disk, DiskFault};
use dxc_model::{Cause, Change, Op, Outcome};
use dxc_outside::{Gate, Stopped};
use fabric_words::Fabric;
use roll_engine::Rolling;

// Settles the Provisioner and halts it, where it isn't halted: what a failed call left in doubt isn't taken up then.
fn make_halted<D: Disk>(p: &mut Provisioner<D>) -> Result<(), DiskFault>
    requires home { (b : Past) × (IsHome D.told D.state b p.old ⊎ IsHalted D.told D.state b p.old) }
    ensures ground { ground_of p.new ≡ ground_of p.old }
    ensures halted { OnOk result ((b : Past) → IsHome D.told D.state b p.old
        ⊎ IsHalted D.told D.state b p.old → IsHalted D.told D.state b p.new) }
    ensures unsettled { OnErr result ((p.old.halted ≡ false)
        × ((b : Past) → IsHome D.told D.state b p.old → IsHome D.told D.state b p.new)) }
    ensures replayed { p.new.replayed ≡ p.old.replayed }
    ensures mover { p.new.mover ≡ p.old.mover }
    ensures doubt { StillDoubts p.old p.new }
    ensures settled { OnOk result (p.old.halted ≡ false → HasNoDoubt p.new) }
    ensures same { p.old.halted ≡ true → p.new ≡ p.old }
    ensures any_moment { D.told → (b : Past) → IsHome D.told D.state b p.old → LeavesOnly
        (D.state p.old.journal.0) (D.state p.new.journal.0) (IsOldOrDoubted b p.old.doubt) }
    ensures cause { HasCause (D.state p.old.journal.0).faults (D.state p.new.journal.0).faults
        (IsErr result) }
    ensures room { Spends 3 (D.state p.old.journal.0) (D.state p.new.journal.0) }
{
    if p.halted() {
        return Ok(());
    }
    settle(p)?;
    halt(p);
    Ok(())
}

// Whether a restart is to be made for this operation: it is INIT-SYS, or the Provisioner is halted.
fn goes_for<D: Disk>(p: &Provisioner<D>, asked: &Op) -> bool
    ensures { IsTrue result ↔ ((p.now.halted ≡ true) ⊎ (asked.now ≡ Restart)) }
{
    p.halted() || matches!(asked, Op::Restart)
}

/// Takes the Provisioner out for a restart, with a copy of the table. For an operation that isn't INIT-SYS this is done only where it is
/// halted. The journal isn't called.
pub fn hold<D: Disk + Drop>(state: &mut State<D>, asked: &Op) -> Held<D>
    requires stands { (o : Opening) × (h : List Entry) × StandsFor D.told D.state o state.old h }
    ensures held { HoldsOut D.Disk asked.now state.old state.new result }
    ensures origin { state.new.origin ≡ state.old.origin }
    ensures still { journal_held state.new.home result ≡ journal_home state.old.home }
{
    let Some(mut driver) = state.take_out(Errand::Restart) else {
        return Held::Waits;
    };
    let held = &mut *driver;
    if !goes_for(&held.p, asked) {
        state.bring_home(driver);
        return Held::Waits;
    }
    held.p.replayed.expected.copy_from(&state.table);
    Held::Held(driver)
}

/// Operation and outcome of the entry with which the turn ends; None where nothing was done.
pub fn entry_of<D: Disk>(held: &Held<D>) -> Option<(Op, Outcome)>
    ensures { result ≡ entry_for held.now }
{
    match held {
        Held::Held(_) => Some((Op::Restart, Outcome::Taken)),
        Held::Waits => None,
    }
}

/// What came of a restart before its first register write.
#[derive(Drop)]
pub enum Reread {
    /// The rest of the last record's work is found.
    Warm(Rolling),
    /// The disk failed, or the journal reads otherwise than it was written.
    Failed(Cause),
}

/// Settles a Provisioner that was taken out for a restart, and halts it where it isn't halted; then reads its journal anew, and finds how its
/// registers go on. This is done outside of any turn. Where the gate stopped, the Provisioner is halted. It takes at most 131,082 of the
/// disk's room.
pub fn read_anew<D: Disk, G: Gate>(
    p: &mut Provisioner<D>,
    fabric: &Fabric,
    asked: &Op,
    gate: &mut G,
) -> Result<Reread, Stopped>
    requires asked { IsDriven asked.now }
    requires own { p.old.mover.fabric ≡ fabric.now }
    requires held { IsHeld D.Disk asked.now p.old }
    ensures ground { ground_of p.new ≡ ground_of p.old }
    ensures reread { Rereads D.Disk asked.now p.old p.new result }
    ensures stopped { RoseOnlyFor (G.stops gate.old) (G.stops gate.new) (result ≡ Err the_stop) }
    ensures asked { RereadAsked (G.asked gate.old gate.new) result }
{
    let _ = asked;
    match make_halted(p) {
        Ok(()) => {}
        Err(DiskFault) => return Ok(Reread::Failed(Cause::DiskFault)),
    }
    let found = recover(p, fabric, gate)?;
    match found {
        Recovered::Warm(rolling) => Ok(Reread::Warm(rolling)),
        Recovered::Cold(_) | Recovered::Astray(_) => Ok(Reread::Failed(Cause::JournalAstray)),
        Recovered::Fault => Ok(Reread::Failed(Cause::DiskFault)),
    }
}

/// Ends the restart: the table takes the change that it lacked, if it lacked one, and the Provisioner is home and ready.
pub fn end<D: Disk + Drop>(state: &mut State<D>, driver: Box<Driver<D>>) -> Option<Change>
    requires restart { (o : Opening) × (own : ℕ) × (h : List Entry) × (asked : Op)
        × (o.first.changes ≡ 0) × StandsFor D.told D.state o state.old h
        × IsOutForRestart D.Disk (outing_of o own h asked) driver.value }
    requires done { rest_of driver.value.rolling ≡ [] }
    ensures restarted { (o : Opening) → (own : ℕ) → (h : List Entry) → (asked : Op)
        → StandsFor D.told D.state o state.old h
        → IsOutForRestart D.Disk (outing_of o own h asked) driver.value
        → StandsFor D.told D.state o state.new (h ++ entry own Restart (Restarted result) ∷ []) }
    // Where no stop came since the last restart no change is taken up.
    ensures of_stop { TakesUpOfStop D.Disk state.old driver.value result }
    ensures origin { state.new.origin ≡ state.old.origin }
{
    let mut driver = driver;
    let held = &mut *driver;
    let lacking = end_recovery(state, &mut held.p, &held.rolling);
    state.bring_home(driver);
    lacking
}

/// Brings the Provisioner home, halted still.
pub fn cut<D: Disk + Drop>(state: &mut State<D>, driver: Box<Driver<D>>)
    ensures unread { CutsUnread D.Disk state.old driver.value state.new }
    ensures cut { CutsRest D.Disk state.old driver.value state.new }
    ensures origin { state.new.origin ≡ state.old.origin }
{
    state.bring_home(driver);
}
