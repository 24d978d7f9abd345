//! The turns of a place with the users: each enters, does one thing with their state, and leaves with the place's entry.
ghost use Rattle.std.specs.Prelude.{◌≡◌, IsErr};
ghost use Rattle.dxc_causes.specs.Stops.{RoseOnlyFor};
ghost use Rattle.user_admin.specs.Openings.{asked_at_turn};
ghost use Rattle.tl1_users.specs.Commands.{NamesUid};
ghost use Rattle.user_admin.specs.Resting.{IsAtRest, RestsUnlessTaken};
ghost use Rattle.user_admin.specs.Shared.{asked_by, asked_in};
ghost use Rattle.user_admin.specs.Turns.{After, Brings, HasPass, HasSeen, IsKept, KeepsPass, LogsIn, Looks, OutAfter, OutUpon, PutsOut, Reads, Takes, Took, Tries};
ghost use Rattle.user_admin.specs.Occupants.{login_op as entered_as};
ghost use Rattle.user_admin.specs.Verdicts.{IsChanging};

use crate::occupants::has_ended;
use crate::op::{UserMark, UserOutcome, UserRows};
use crate::shared::{Planned, SharedUsers, mark_of, refused};
use crate::state::UserState;
use dxc_disk::{Disk, DiskFault};
use dxc_model::{Cause, Class, Uid};
use dxc_outside::{Gate, Stopped};
use std::snapshot::Snapshot;
use std::sync::Wait;
use tl1_users::UserOp;
use turnstile::{Pass, Rest, Turnstile};

/// What came of a change of the users.
#[derive(Clone, Copy)]
pub enum UserTook {
    Done,
    Denied(Cause),
}

/// Makes the change of a changing operation. What the users deny is denied in one turn. Else the keeper is taken out in it, the change is kept in
/// the journal outside of any turn, and the keeper is brought home in a second turn; while another place has it, it waits in the line of those who
/// change something.
pub fn change<D: Disk + Drop, G: Gate, R: Wait>(
    pass: &mut Pass,
    turns: &Turnstile<SharedUsers<D>>,
    op: UserOp,
    gate: &mut G,
    rt: &R,
) -> Result<UserTook, Stopped>
    requires pass { HasPass turns.now pass.old }
    requires changing { IsChanging op }
    requires named { NamesUid op }
    requires seen { HasSeen D.Disk turns.now pass.old }
    ensures pass { KeepsPass turns.now pass.old pass.new }
    ensures rests { IsAtRest pass.old → IsAtRest pass.new }
    ensures took { After D.Disk turns.now pass.old (Took op pass.new result) }
    ensures stopped { RoseOnlyFor (G.stops gate.old) (G.stops gate.new) (IsErr result) }
    ensures asked { G.asked gate.old gate.new (asked_at_turn result) }
{
    match try_change(pass, turns, &op, gate, rt) {
        Ok(Some(took)) => Ok(took),
        Err(Stopped) => Err(Stopped),
        Ok(None) => {
            turns.stand_in_line(rt);
            let took = change_in_line(pass, turns, &op, gate, rt);
            turns.step_aside();
            turns.call_next();
            took
        }
    }
}

// The same, by one that stands in the line of those who change something: it tries again until it finds the keeper home.
fn change_in_line<D: Disk + Drop, G: Gate, R: Wait>(
    pass: &mut Pass,
    turns: &Turnstile<SharedUsers<D>>,
    op: &UserOp,
    gate: &mut G,
    rt: &R,
) -> Result<UserTook, Stopped>
    requires pass { HasPass turns.now pass.old }
    requires changing { IsChanging op.now }
    requires named { NamesUid op.now }
    requires seen { HasSeen D.Disk turns.now pass.old }
    ensures pass { KeepsPass turns.now pass.old pass.new }
    ensures rests { IsAtRest pass.old → IsAtRest pass.new }
    ensures took { After D.Disk turns.now pass.old (Took op.now pass.new result) }
    ensures stopped { RoseOnlyFor (G.stops gate.old) (G.stops gate.new) (IsErr result) }
    ensures asked { G.asked gate.old gate.new (asked_at_turn result) }
{
    let mut rest = Rest::new();
    for _ in rt.forever() {
        match try_change(pass, turns, op, gate, rt) {
            Ok(Some(took)) => return Ok(took),
            Err(Stopped) => return Err(Stopped),
            Ok(None) => rest.again(0, rt),
        }
    }
    unreachable!()
}

// Makes the change, unless another place has the keeper; then None.
fn try_change<D: Disk + Drop, G: Gate, R: Wait>(
    pass: &mut Pass,
    turns: &Turnstile<SharedUsers<D>>,
    op: &UserOp,
    gate: &mut G,
    rt: &R,
) -> Result<Option<UserTook>, Stopped>
    requires pass { HasPass turns.now pass.old }
    requires changing { IsChanging op.now }
    requires named { NamesUid op.now }
    requires seen { HasSeen D.Disk turns.now pass.old }
    ensures pass { KeepsPass turns.now pass.old pass.new }
    ensures rests { IsAtRest pass.old → IsAtRest pass.new }
    ensures took { After D.Disk turns.now pass.old (Tries op.now pass.new result) }
    ensures stopped { RoseOnlyFor (G.stops gate.old) (G.stops gate.new) (IsErr result) }
    ensures asked { G.asked gate.old gate.new (asked_in result) }
{
    let (mut keeper, change) = match take(pass, turns, op, gate, rt) {
        Ok(Planned::Taken(keeper, change)) => (keeper, change),
        Ok(Planned::Denied(cause)) => return Ok(Some(UserTook::Denied(cause))),
        Ok(Planned::Waits) => return Ok(None),
        Err(Stopped) => return Err(Stopped),
    };
    let state = &mut *keeper;
    match state.note(&change) {
        Ok(()) => {
            bring(pass, turns, op, UserOutcome::Done(change), keeper, rt);
            Ok(Some(UserTook::Done))
        }
        Err(DiskFault) => {
            let cause = Cause::DiskFault;
            bring(pass, turns, op, UserOutcome::Failed(cause), keeper, rt);
            Ok(Some(UserTook::Denied(cause)))
        }
    }
}

// Begins a change in one turn.
fn take<D: Disk + Drop, G: Gate, R: Wait>(
    pass: &mut Pass,
    turns: &Turnstile<SharedUsers<D>>,
    op: &UserOp,
    gate: &mut G,
    rt: &R,
) -> Result<Planned<D>, Stopped>
    requires pass { HasPass turns.now pass.old }
    requires changing { IsChanging op.now }
    requires seen { HasSeen D.Disk turns.now pass.old }
    ensures pass { KeepsPass turns.now pass.old pass.new }
    ensures rests { IsAtRest pass.old → RestsUnlessTaken result pass.new }
    ensures took { After D.Disk turns.now pass.old (Takes D.Disk op.now pass.new result) }
    ensures stopped { RoseOnlyFor (G.stops gate.old) (G.stops gate.new) (IsErr result) }
    ensures asked { G.asked gate.old gate.new (asked_by result) }
{
    let mut turn = turns.enter(pass, rt);
    let planned = turn.state_mut().plan(op, gate);
    match mark_of(pass.number(), op, &planned) {
        Some(mark) => {
            turns.leave(pass, turn, mark);
            planned
        }
        None => {
            turns.back(pass, turn);
            planned
        }
    }
}

// Brings the keeper home in one turn, by this outcome of the operation.
fn bring<D: Disk + Drop, R: Wait>(
    pass: &mut Pass,
    turns: &Turnstile<SharedUsers<D>>,
    op: &UserOp,
    outcome: UserOutcome,
    keeper: Box<UserState<D>>,
    rt: &R,
)
    requires pass { HasPass turns.now pass.old }
    requires kept { OutUpon D.Disk turns.now pass.old (IsKept D.Disk op.now outcome keeper.value) }
    ensures pass { KeepsPass turns.now pass.old pass.new }
    ensures rests { IsAtRest pass.new }
    ensures brought { OutAfter D.Disk turns.now pass.old (Brings op.now outcome pass.new) }
{
    let mut turn = turns.enter(pass, rt);
    turn.state_mut().bring(&outcome, keeper);
    let place = pass.number();
    let op = Snapshot::of(op);
    turns.leave(pass, turn, UserMark::Entered { place, op, outcome });
}

/// The class of the user of a name, case aside, who has the PID, as the users stand.
pub fn login<D: Disk + Drop, R: Wait>(
    pass: &mut Pass,
    turns: &Turnstile<SharedUsers<D>>,
    vacant: bool,
    uid: Uid,
    pid: &[u8],
    rt: &R,
) -> Option<Class>
    requires pass { HasPass turns.now pass.old }
    requires seen { HasSeen D.Disk turns.now pass.old }
    ensures pass { KeepsPass turns.now pass.old pass.new }
    ensures rests { IsAtRest pass.old → IsAtRest pass.new }
    ensures logged { After D.Disk turns.now pass.old (LogsIn (record
        { vacant = vacant; uid = uid; pid = pid.now }) pass.new result) }
{
    let mut turn = turns.enter(pass, rt);
    let class = turn.state().list.login_now(uid, pid);
    let place = pass.number();
    let done = login_op(vacant, uid, class);
    turn.state_mut().answer(place, &done);
    let op = Snapshot::of(&done);
    let outcome = UserOutcome::Answered;
    turns.leave(pass, turn, UserMark::Entered { place, op, outcome });
    class
}

// How a look for a log-in is entered, which found this class.
fn login_op(vacant: bool, uid: Uid, found: Option<Class>) -> UserOp
    ensures { result ≡ entered_as vacant uid found }
{
    if vacant && found.is_some() {
        UserOp::LogIn(uid)
    } else {
        UserOp::Look(uid)
    }
}

/// Ends the sessions of the user of a name, case aside: at each place whose last log-in was the user's, from now on `is_cancelled`.
pub fn cancel<D: Disk + Drop, R: Wait>(
    pass: &mut Pass,
    turns: &Turnstile<SharedUsers<D>>,
    uid: Uid,
    rt: &R,
)
    requires pass { HasPass turns.now pass.old }
    requires seen { HasSeen D.Disk turns.now pass.old }
    ensures pass { KeepsPass turns.now pass.old pass.new }
    ensures rests { IsAtRest pass.old → IsAtRest pass.new }
    ensures cancelled { After D.Disk turns.now pass.old (PutsOut uid pass.new) }
{
    let mut turn = turns.enter(pass, rt);
    let place = pass.number();
    let done = UserOp::Cancel(uid);
    turn.state_mut().answer(place, &done);
    let op = Snapshot::of(&done);
    let outcome = UserOutcome::Answered;
    turns.leave(pass, turn, UserMark::Entered { place, op, outcome });
}

/// Whether the sessions were ended of who logged in at this place last. Nothing is entered.
pub fn is_cancelled<D: Disk + Drop, R: Wait>(
    pass: &mut Pass,
    turns: &Turnstile<SharedUsers<D>>,
    rt: &R,
) -> bool
    requires pass { HasPass turns.now pass.old }
    requires seen { HasSeen D.Disk turns.now pass.old }
    ensures pass { KeepsPass turns.now pass.old pass.new }
    ensures rests { IsAtRest pass.old → IsAtRest pass.new }
    ensures looked { After D.Disk turns.now pass.old (Looks pass.new result) }
{
    let turn = turns.enter(pass, rt);
    let cancelled = has_ended(&turn.state().occupants, pass.number());
    turns.back(pass, turn);
    cancelled
}

/// The names of all users with their classes, in order of names, or of one; UnknownUser is the only cause against it.
pub fn rows<D: Disk + Drop, R: Wait>(
    pass: &mut Pass,
    turns: &Turnstile<SharedUsers<D>>,
    which: Option<Uid>,
    rt: &R,
) -> Result<UserRows, Cause>
    requires pass { HasPass turns.now pass.old }
    requires seen { HasSeen D.Disk turns.now pass.old }
    ensures pass { KeepsPass turns.now pass.old pass.new }
    ensures rests { IsAtRest pass.old → IsAtRest pass.new }
    ensures rows { After D.Disk turns.now pass.old (Reads which pass.new result) }
{
    let turn = turns.enter(pass, rt);
    let given = turn.state().list.listing(&which);
    let place = pass.number();
    let op = Snapshot::of(&UserOp::Rows(which));
    match given {
        Ok(rows) => {
            let outcome = UserOutcome::Answered;
            turns.leave(pass, turn, UserMark::Entered { place, op, outcome });
            Ok(rows)
        }
        Err(cause) => {
            let outcome = refused(cause);
            turns.leave(pass, turn, UserMark::Entered { place, op, outcome });
            Err(cause)
        }
    }
}
