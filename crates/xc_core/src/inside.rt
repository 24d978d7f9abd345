//! What is done with the state within one turn.
ghost use Rattle.std.specs.Prelude.{◌≡◌, ◌++◌, ◌∷◌, List, [], ℕ};
ghost use Rattle.dxc_model.specs.declared.entry.Entry.{Entry};
ghost use Rattle.dxc_model.specs.declared.op.Op.{Op};
ghost use Rattle.dxc_model.specs.declared.entry.Outcome.TheVariants.{Done};
ghost use Rattle.dxc_model.specs.Operations.{IsApt};
ghost use Rattle.roll_engine.specs.Rollings.{rest_of};
ghost use Rattle.xc_core.specs.Seeing.{entry, refused as refused_by};
ghost use Rattle.xc_core.specs.Gathered.{IsOutForChange, outing_of};
ghost use Rattle.xc_core.specs.States.{Opening, StandsFor};
ghost use Rattle.xc_core.specs.Turns.{journal_home, journal_taken, outcome_of as outcome_for};
ghost use Rattle.xc_core.specs.Views.{CutsPlanned, CutsWork, DeniesIn, FailsHome, TakesOut};

use crate::beginning::plan_copied;
use crate::provisioner::{Driver, halt};
use crate::state::{Errand, State, finish};
use crate::turns::Took;
use dxc_disk::Disk;
use dxc_model::{Cause, Change, Op, Outcome};

/// Takes the Provisioner out and plans the operation; where it doesn't come to a work, the Provisioner is home again. The journal isn't
/// called.
pub fn take<D: Disk + Drop>(state: &mut State<D>, op: &Op) -> Took<D>
    requires apt { IsApt state.old.table.shape op.now }
    requires stands { (o : Opening) × (h : List Entry) × StandsFor D.told D.state o state.old h }
    ensures took { TakesOut D.Disk op.now state.old state.new result }
    ensures origin { state.new.origin ≡ state.old.origin }
    ensures still { journal_taken state.new.home result ≡ journal_home state.old.home }
{
    let Some(mut driver) = state.take_out(Errand::Change) else {
        return Took::Waits;
    };
    let held = &mut *driver;
    if held.p.halted() {
        state.bring_home(driver);
        return Took::Halted;
    }
    match plan_copied(&mut held.p, &mut held.rolling, &state.table, op) {
        Ok(bytes) => Took::Rolling(driver, bytes),
        Err(cause) => {
            state.bring_home(driver);
            Took::Denied(cause)
        }
    }
}

/// The cause that the table has against the operation, wherever the Provisioner is. None where it has none, and while a stop may stand last: a restart
/// comes first then.
pub fn deny<D: Disk + Drop>(state: &State<D>, op: &Op) -> Option<Cause>
    requires apt { IsApt state.now.table.shape op.now }
    ensures denied { DeniesIn D.Disk op.now state.now result }
{
    if state.may_be_stopped() {
        return None;
    }
    match state.table.verdict(op) {
        Ok(_) => None,
        Err(cause) => Some(cause),
    }
}

/// Brings the Provisioner home as a fault of its journal left it.
pub fn fail<D: Disk + Drop>(state: &mut State<D>, driver: Box<Driver<D>>)
    ensures failed { FailsHome D.Disk state.old driver.value state.new }
    ensures origin { state.new.origin ≡ state.old.origin }
{
    state.bring_home(driver);
}

/// Lets the table take the change, and brings the Provisioner home.
pub fn bring<D: Disk + Drop>(state: &mut State<D>, driver: Box<Driver<D>>) -> Change
    requires taken { (o : Opening) × (own : ℕ) × (h : List Entry) × (op : Op)
        × (o.first.changes ≡ 0) × StandsFor D.told D.state o state.old h
        × IsOutForChange D.Disk (outing_of o own h op) driver.value }
    requires done { rest_of driver.value.rolling ≡ [] }
    ensures done { (o : Opening) → (own : ℕ) → (h : List Entry) → (op : Op)
        → StandsFor D.told D.state o state.old h
        → IsOutForChange D.Disk (outing_of o own h op) driver.value
        → StandsFor D.told D.state o state.new (h ++ entry own op (Done result) ∷ []) }
    ensures origin { state.new.origin ≡ state.old.origin }
{
    let mut driver = driver;
    let held = &mut *driver;
    let change = finish(state, &mut held.p, &held.rolling);
    state.bring_home(driver);
    change
}

/// Brings the Provisioner home halted.
pub fn cut<D: Disk + Drop>(state: &mut State<D>, driver: Box<Driver<D>>)
    ensures unnoted { CutsPlanned D.Disk state.old driver.value state.new }
    ensures cut { CutsWork D.Disk state.old driver.value state.new }
    ensures origin { state.new.origin ≡ state.old.origin }
{
    let mut driver = driver;
    halt(&mut driver.p);
    state.bring_home(driver);
}

/// How a denied operation is entered: what the table denies is Denied, what a limit stood against has Failed.
pub fn refused(cause: Cause) -> Outcome
    ensures { result ≡ refused_by cause }
{
    match cause {
        Cause::NoMiddle | Cause::SwitchLimit | Cause::DiskFault | Cause::JournalAstray => {
            Outcome::Failed(cause)
        }
        _ => Outcome::Denied(cause),
    }
}

/// The entry's outcome with which the turn ends; None where nothing was done.
pub fn outcome_of<D: Disk>(took: &Took<D>) -> Option<Outcome>
    ensures { result ≡ outcome_for took.now }
{
    match took {
        Took::Rolling(_, _) => Some(Outcome::Taken),
        Took::Denied(cause) => Some(refused(*cause)),
        Took::Halted | Took::Waits => None,
    }
}
