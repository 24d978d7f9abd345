//! What places share of the users: a list of them, and the keeper where nobody has it.
ghost use Rattle.std.specs.Prelude.{◌≡◌, [], None, Some, Ok, IfOk, IsErr};
ghost use Rattle.dxc_causes.specs.Stops.{RoseOnlyFor};
ghost use Rattle.user_admin.specs.declared.op.UserChange.{UserChange as Change};
ghost use Rattle.user_admin.specs.Changes.{Fits, after};
ghost use Rattle.user_admin.specs.Histories.{change_in};
ghost use Rattle.user_admin.specs.Marks.{mark_for};
ghost use Rattle.user_admin.specs.Occupants.{answered};
ghost use Rattle.user_admin.specs.Shared.{BringsHome, MayBring, PlansFor, SharedStands, asked_by, keeper_left};
ghost use Rattle.user_admin.specs.States.{Stands, refused as refused_by};
ghost use Rattle.user_admin.specs.Verdicts.{IsChanging, refusal};

use crate::occupants::{Occupants, answer, nobody_yet};
use crate::op::{UserChange, UserMark, UserOutcome};
use crate::state::{UserState, copy_of};
use crate::table::UserTable;
use dxc_causes::NoMemory;
use dxc_disk::Disk;
use dxc_model::Cause;
use dxc_outside::{Gate, GatePlace, Stopped};
use std::alloc::Global;
use std::mem;
use std::snapshot::Snapshot;
use tl1_text::Sid;
use tl1_users::UserOp;
use turnstile::Sequential;

/// The users that places share. A place takes the keeper out, which is the users with their journal, for a change; so no turn calls the journal's
/// disk, and whoever only reads finds the list meanwhile.
#[derive(Drop)]
pub struct SharedUsers<D: Disk> {
    pub(crate) sid: Sid,
    pub(crate) list: UserTable,
    /// None: a place has it.
    pub(crate) keeper: Option<Box<UserState<D>>>,
    pub(crate) occupants: Occupants,
    /// As they were when nobody had taken a turn. It has no bytes; contracts alone read it.
    pub(crate) first: Snapshot<UserState<D>>,
}

impl<D: Disk> Sequential for SharedUsers<D> {
    type Entry = UserMark;

    ghost use Rattle.user_admin.specs.Histories.{Opening};
    ghost use Rattle.user_admin.specs.Shared.{SharedStands, opening_at};
    ghost use Rattle.user_admin.specs.Coding.{mark_coded, opening_coded};
    ghost use Rattle.user_admin.specs.Marks.{place_of};

    ghost Opening = { Opening };

    ghost opening = { opening_at D.state };

    ghost number = { place_of };

    ghost stands = { SharedStands D.told D.state };

    ghost opening_code = { opening_coded };

    ghost entry_code = { mark_coded };
}

/// What a turn comes to in which a change was to begin.
#[derive(Drop)]
pub(crate) enum Planned<D: Disk> {
    /// The place has the keeper, and this is the change.
    Taken(Box<UserState<D>>, UserChange),
    Denied(Cause),
    /// Another place has the keeper.
    Waits,
}

impl<D: Disk + Drop> SharedUsers<D> {
    /// Of users who are nobody's yet.
    pub fn of(alloc: Global, state: UserState<D>) -> Result<SharedUsers<D>, NoMemory>
        requires stands { Stands D.told D.state state [] }
        ensures first { IfOk result (λ s. s.first.value ≡ state) }
        ensures stands { IfOk result (λ s. SharedStands D.told D.state s []) }
    {
        let list = state.lists.users.copy(alloc)?;
        let sid = copy_of(&state.sid);
        let first = Snapshot::of(&state);
        match Box::new(alloc, state) {
            Ok(keeper) => Ok(SharedUsers {
                sid,
                list,
                keeper: Some(keeper),
                occupants: nobody_yet(),
                first,
            }),
            Err(_) => Err(NoMemory),
        }
    }

    /// Begins a change in a turn: what the users deny is denied whoever has the keeper; else it is taken out, where it is home and the gate lets
    /// it. Its journal isn't called.
    pub(crate) fn plan<G: Gate>(&mut self, op: &UserOp, gate: &mut G) -> Result<Planned<D>, Stopped>
        requires changing { IsChanging op.now }
        ensures planned { PlansFor D.Disk op.now self.old self.new result }
        ensures first { self.new.first ≡ self.old.first }
        // The keeper is as it was, at home or out: no call on the disk.
        ensures still { keeper_left self.new.keeper result ≡ self.old.keeper }
        // It waits for another place alone, and not to be denied.
        ensures waits { result ≡ Ok Planned.Waits
            → (refusal op.now self.old.list ≡ None) × (self.old.keeper ≡ None) }
        ensures stopped { RoseOnlyFor (G.stops gate.old) (G.stops gate.new) (IsErr result) }
        ensures asked { G.asked gate.old gate.new (asked_by result) }
    {
        let change = match self.list.verdict(&self.sid, op) {
            Ok(change) => change,
            Err(cause) => return Ok(Planned::Denied(cause)),
        };
        let Some(keeper) = mem::replace(&mut self.keeper, None) else {
            return Ok(Planned::Waits);
        };
        match gate.pass(GatePlace::Journal) {
            Ok(()) => Ok(Planned::Taken(keeper, change)),
            Err(Stopped) => {
                self.keeper = Some(keeper);
                Err(Stopped)
            }
        }
    }

    /// Brings the keeper home, by this outcome of the operation for which it was taken out. The list takes the change that was done.
    pub(crate) fn bring(&mut self, outcome: &UserOutcome, keeper: Box<UserState<D>>)
        requires may { MayBring D.Disk outcome.now self.old keeper.value }
        ensures home { self.new.keeper ≡ Some keeper }
        ensures brought { BringsHome D.Disk outcome.now self.old keeper.value self.new }
        ensures first { self.new.first ≡ self.old.first }
    {
        take_done(&mut self.list, outcome);
        self.keeper = Some(keeper);
    }

    /// Puts down who is where after an operation of the place that is answered.
    #[inline(always)]
    pub(crate) fn answer(&mut self, place: u16, op: &UserOp)
        ensures { self.new ≡ record self.old
            { occupants = answered place op.now self.old.occupants } }
    {
        answer(&mut self.occupants, place, op);
    }
}

// Takes the change of an operation that was done.
fn take_done(list: &mut UserTable, outcome: &UserOutcome)
    requires { (c : Change) → outcome.now ≡ UserOutcome.Done c → Fits c list.old }
    ensures { list.new ≡ after (change_in outcome.now) list.old }
{
    let UserOutcome::Done(change) = outcome else {
        return;
    };
    list.take(change);
}

// How a denied operation is entered: what the users deny is Denied, what the disk stood against has Failed.
pub(crate) fn refused(cause: Cause) -> UserOutcome
    ensures { result ≡ refused_by cause }
{
    match cause {
        Cause::DiskFault => UserOutcome::Failed(cause),
        _ => UserOutcome::Denied(cause),
    }
}

/// What a turn leaves in which a change was to begin; None where it is given back.
pub(crate) fn mark_of<D: Disk>(
    place: u16,
    op: &UserOp,
    planned: &Result<Planned<D>, Stopped>,
) -> Option<UserMark>
    ensures { result ≡ mark_for place op.now planned.now }
{
    let planned = match planned {
        Ok(planned) => planned,
        Err(Stopped) => return None,
    };
    match planned {
        Planned::Taken(_, _) => Some(UserMark::Took(place)),
        Planned::Denied(cause) => Some(UserMark::Entered {
            place,
            op: Snapshot::of(op),
            outcome: refused(*cause),
        }),
        Planned::Waits => None,
    }
}
