//! The state of the controller: the table, and the Provisioner where nobody has it.
ghost use Rattle.std.specs.Prelude.{◌≡◌, [], IfNone, IfSome};
ghost use Rattle.dxc_model.specs.declared.op.Change.{Change};
ghost use Rattle.dxc_model.specs.declared.op.Op.{Op};
ghost use Rattle.roll_engine.specs.Rollings.{rest_of};
ghost use Rattle.xc_core.specs.Reckonings.{Past};
ghost use Rattle.xc_core.specs.Provisioners.{ground_of};
ghost use Rattle.xc_core.specs.Finishes.{OnlyFinishes};
ghost use Rattle.xc_core.specs.Gathered.{FinishesFor, RollsFor, driven_by, grant_of};
ghost use Rattle.dbchg_reports.specs.Recent.{with_one};

use crate::granted::granted;
use crate::origin::Origin;
use crate::provisioner::{Driver, Provisioner};
use dbchg_reports::Reports;
use dxc_disk::Disk;
use dxc_model::{Change, Entry, Table};
use paull_chain::apply_work;
use roll_engine::Rolling;
use std::mem;
use turnstile::Sequential;

/// Where the Provisioner is.
#[derive(Drop)]
pub enum Home<D: Disk> {
    In(Box<Driver<D>>),
    /// A session has it, for this.
    Out(Errand),
}

/// What a session has the Provisioner for.
#[derive(Drop)]
pub enum Errand {
    /// A change. No stop stands last then.
    Change,
    /// A restart.
    Restart,
}

/// What stands for the history of the element's changes.
#[derive(Drop)]
pub struct State<D: Disk> {
    pub table: Table,
    pub reports: Reports,
    pub home: Home<D>,
    pub origin: Origin<D>,
}

impl<D: Disk> Sequential for State<D> {
    type Entry = Entry;

    ghost use Rattle.xc_core.specs.States.{Opening, Stands, opening_of};
    ghost use Rattle.xc_core.specs.Seeing.{entry_coded, place_of};
    ghost use Rattle.xc_core.specs.Coding.{opening_coded};

    ghost Opening = { Opening };

    ghost opening = { opening_of D.state };

    ghost number = { place_of };

    ghost stands = { Stands D.told D.state };

    ghost opening_code = { opening_coded };

    ghost entry_code = { entry_coded };
}

impl<D: Disk + Drop> State<D> {
    ghost use Rattle.xc_core.specs.declared.state.Errand.{Errand};
    ghost use Rattle.xc_core.specs.declared.state.Home.TheVariants.{In, Out};
    ghost use Rattle.xc_core.specs.States.{may_be_stopped};

    /// Takes the Provisioner for this, where it is home.
    pub fn take_out(&mut self, errand: Errand) -> Option<Box<Driver<D>>>
        ensures state { IfSome result (λ _. self.new ≡ record self.old { home = Out errand }) }
        ensures found { IfSome result (λ d. self.old.home ≡ In d) }
        ensures same { IfNone result (self.new ≡ self.old) }
        ensures none { IfNone result ((e : Errand) × (self.old.home ≡ Out e)) }
    {
        match mem::replace(&mut self.home, Home::Out(errand)) {
            Home::In(driver) => Some(driver),
            Home::Out(before) => {
                self.home = Home::Out(before);
                None
            }
        }
    }

    /// Whether a stop may stand last, so that the table may lack a change which the journal holds.
    pub fn may_be_stopped(&self) -> bool
        ensures { result ≡ may_be_stopped self.now.home }
    {
        match &self.home {
            Home::In(driver) => driver.p.halted(),
            Home::Out(Errand::Change) => false,
            Home::Out(Errand::Restart) => true,
        }
    }

    /// Gives the Provisioner home.
    pub fn bring_home(&mut self, driver: Box<Driver<D>>)
        ensures { self.new ≡ record self.old { home = In driver } }
    {
        self.home = Home::In(driver);
    }
}

/// Makes the change in the table and in the matrix, once all its register writes are made, and answers it. The Provisioner is
/// the one of the `begin` that planned it, and isn't home.
pub fn finish<D: Disk>(state: &mut State<D>, p: &mut Provisioner<D>, rolling: &Rolling) -> Change
    requires rolls { (b : Past) × (op : Op) × (c : Change)
        × RollsFor D.Disk (grant_of b op c) p.old rolling.now
        × (b.fold.table ≡ state.old.table) }
    requires done { rest_of rolling.now ≡ [] }
    requires counted { state.old.reports.newest ≡ p.old.changes }
    ensures ground { ground_of p.new ≡ ground_of p.old }
    ensures journal { p.new.journal ≡ p.old.journal }
    ensures others { OnlyFinishes p.old p.new }
    ensures state { state.new ≡ record state.old
        { table = state.new.table; reports = with_one result state.old.reports } }
    ensures finishes { (b : Past) → (op : Op) → (c : Change)
        → RollsFor D.Disk (grant_of b op c) p.old rolling.now → b.fold.table ≡ state.old.table
        → FinishesFor D.Disk (driven_by b c rolling.now) state.new.table p.new result }
{
    let Some(op) = p.doubt else { unreachable!() };
    let change = granted(&state.table, &op);
    // By reference, since the check reads as a move what passes an enum with a label in it by value.
    let made = &change;
    apply_work(&mut p.matrix, rolling.work());
    state.table.take(*made);
    state.reports.push(*made);
    p.changes += 1;
    p.spent = p.mover.switches();
    p.doubt = None;
    change
}
