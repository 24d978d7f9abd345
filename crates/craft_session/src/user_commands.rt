//! What a unit means by the users is done: a log-in is looked up, and an operation on them made and noted.
ghost use Rattle.std.specs.Prelude.{◌≡◌, [], IfOk, IsErr, Ok};
ghost use Rattle.dxc_causes.specs.Stops.{RoseOnlyFor};
ghost use Rattle.dxc_num.specs.Dimensions.{Dimensions};
ghost use Rattle.tl1_users.specs.Commands.{NamesUid, is_not_logged_in};
ghost use Rattle.user_admin.specs.Verdicts.{IsChanging};
ghost use Rattle.craft_session.specs.Asks.{IsAptAsk};
ghost use Rattle.craft_session.specs.Desks.{put_down};
ghost use Rattle.craft_session.specs.Gated.{NothingAsked};
ghost use Rattle.craft_session.specs.Hearing.{AskedAt, left, to_do};
ghost use Rattle.craft_session.specs.Noted.{UsersNoted};
ghost use Rattle.craft_session.specs.Meanings.{heard_ask, log_in as logged_in, login_wants, named_by, op_wants, users_ask, users_want};
ghost use Rattle.craft_session.specs.Readings.{IsAptRead, IsCommand, asked_after, read_as, wanted_by};
ghost use Rattle.craft_session.specs.Seats.{IsSameUserSeat, UserSeatGoesOn};

use crate::ask::{Ask, Meaning};
use crate::noting::{note_user_command, user_change_of};
use crate::users::UserDesk;
use dxc_disk::Disk;
use dxc_model::{Cause, Class, SessionUser, Uid};
use dxc_notes::{Notes, Outcome, UserChange, Word};
use dxc_outside::{Gate, Stopped};
use std::sync::Wait;
use tl1_text::Ctag;
use tl1_users::UserOp;
use user_admin::turns::UserTook;
use user_admin::upper;

/// Asks the users what a unit of this text means by them, if it does, and puts down what it asks of the session then; the rows of users that it
/// reads stand in `users`. Err: the gate stopped before the users were changed.
#[inline(always)]
pub(crate) fn consult<U: Disk + Drop, G: Gate, N: Notes, R: Wait>(
    users: &mut UserDesk<U>,
    user: &SessionUser,
    unit: &[u8],
    meaning: Meaning,
    tag: &Option<Ctag>,
    ask: &mut Ask,
    gate: &mut G,
    notes: &mut N,
    rt: &R,
) -> Result<(), Stopped>
    requires no_rows { users.old.rows.items ≡ [] }
    requires apt { (d : Dimensions) × IsAptRead d
        (read_as unit.now meaning ask.old users.old.asked.op) }
    ensures same { IsSameUserSeat users.old.seat users.new.seat }
    ensures goes { UserSeatGoesOn users.old.seat users.new.seat }
    ensures asked { AskedAt users.old.seat
        (wanted_by user.now (read_as unit.now meaning ask.old users.old.asked.op))
        (asked_after user.now (read_as unit.now meaning ask.old users.old.asked.op))
        (left users.new.rows.items users.new.seat.seen (G.asked gate.old gate.new))
        (put_down result ask.new) }
    ensures noted { UsersNoted (N.noted notes.old notes.new) user.now tag.now
        (wanted_by user.now (read_as unit.now meaning ask.old users.old.asked.op))
        (put_down result ask.new) }
    ensures apt { (d : Dimensions)
        → IsAptRead d (read_as unit.now meaning ask.old users.old.asked.op)
        → IfOk (put_down result ask.new) (IsAptAsk d) }
    ensures stopped { RoseOnlyFor (G.stops gate.old) (G.stops gate.new) (IsErr result) }
{
    match meaning {
        Meaning::Session => Ok(()),
        Meaning::LogIn { uid, pid } => {
            log_in(users, user, uid.text(unit), pid.text(unit), ask, rt);
            Ok(())
        }
        Meaning::Users => ask_users(users, user, tag, ask, gate, notes, rt),
    }
}

/// Looks whom name and PID log in. A name that is too long for a user's is nobody's.
// Apart, since the users' entries are large, and a unit that has none pays for no room of theirs.
#[inline(never)]
fn log_in<U: Disk + Drop, R: Wait>(
    users: &mut UserDesk<U>,
    user: &SessionUser,
    uid: &[u8],
    pid: &[u8],
    ask: &mut Ask,
    rt: &R,
)
    requires no_rows { users.old.rows.items ≡ [] }
    ensures same { IsSameUserSeat users.old.seat users.new.seat }
    ensures goes { UserSeatGoesOn users.old.seat users.new.seat }
    ensures asked { AskedAt users.old.seat (login_wants user.now uid.now pid.now)
        (λ x. logged_in user.now (named_by uid.now x))
        (left users.new.rows.items users.new.seat.seen NothingAsked) (Ok ask.new) }
    ensures apt { (d : Dimensions) → IsAptAsk d ask.new }
{
    users.secrets.hear_log_in();
    let Some(uid) = Uid::of(uid) else {
        *ask = Ask::Refused(Cause::BadIdentity);
        return;
    };
    users.guesses.rest(rt);
    match users.seat.login(is_vacant(user), uid, pid, rt) {
        Some(class) => {
            users.guesses.right();
            *ask = log_in_as(user, upper(uid), class);
        }
        None => {
            users.guesses.wrong();
            *ask = Ask::Refused(Cause::BadIdentity);
        }
    }
}

/// Nobody is logged in.
fn is_vacant(user: &SessionUser) -> bool
    ensures { result ≡ is_not_logged_in user.now }
{
    matches!(user, SessionUser::Nobody)
}

/// Where nobody is logged in, the user logs in.
fn log_in_as(user: &SessionUser, uid: Uid, class: Class) -> Ask
    ensures ask { result ≡ logged_in user.now (SessionUser.User uid class) }
    ensures apt { (d : Dimensions) → IsAptAsk d result }
{
    match user {
        SessionUser::Nobody => Ask::LogsIn(SessionUser::User { uid, class }),
        SessionUser::User { .. } => Ask::Refused(Cause::AlreadyLoggedIn),
    }
}

/// Asks of the users what was put down for them, and puts down what that asks of the session.
// Apart, since an operation on them holds a PID, and a unit that asks for none clears no room of it.
#[inline(never)]
fn ask_users<U: Disk + Drop, G: Gate, N: Notes, R: Wait>(
    users: &mut UserDesk<U>,
    user: &SessionUser,
    tag: &Option<Ctag>,
    ask: &mut Ask,
    gate: &mut G,
    notes: &mut N,
    rt: &R,
) -> Result<(), Stopped>
    requires named { IfOk users.old.asked.op NamesUid }
    requires command { IfOk users.old.asked.op IsCommand }
    requires no_rows { users.old.rows.items ≡ [] }
    ensures same { IsSameUserSeat users.old.seat users.new.seat }
    ensures goes { UserSeatGoesOn users.old.seat users.new.seat }
    ensures asked { AskedAt users.old.seat (users_want users.old.asked.op)
        (λ x. users_ask x users.old.asked.op)
        (left users.new.rows.items users.new.seat.seen (G.asked gate.old gate.new))
        (put_down result ask.new) }
    ensures noted { UsersNoted (N.noted notes.old notes.new) user.now tag.now
        (users_want users.old.asked.op) (put_down result ask.new) }
    ensures apt { (d : Dimensions) → IfOk (put_down result ask.new) (IsAptAsk d) }
    ensures stopped { RoseOnlyFor (G.stops gate.old) (G.stops gate.new) (IsErr result) }
{
    users.secrets.hear_command();
    match users.asked.take() {
        Ok(op) => {
            *ask = on_users(users, user, tag, op, gate, notes, rt)?;
            Ok(())
        }
        Err(cause) => {
            *ask = Ask::Refused(cause);
            Ok(())
        }
    }
}

/// Does an operation on the users; one that ends sessions ends this one too where it is that user's.
fn on_users<U: Disk + Drop, G: Gate, N: Notes, R: Wait>(
    users: &mut UserDesk<U>,
    user: &SessionUser,
    tag: &Option<Ctag>,
    op: UserOp,
    gate: &mut G,
    notes: &mut N,
    rt: &R,
) -> Result<Ask, Stopped>
    requires named { NamesUid op }
    requires command { IsCommand op }
    requires no_rows { users.old.rows.items ≡ [] }
    ensures same { IsSameUserSeat users.old.seat users.new.seat }
    ensures goes { UserSeatGoesOn users.old.seat users.new.seat }
    ensures asked { AskedAt users.old.seat (op_wants op) heard_ask
        (left users.new.rows.items users.new.seat.seen (G.asked gate.old gate.new)) result }
    ensures noted { UsersNoted (N.noted notes.old notes.new) user.now tag.now (op_wants op)
        result }
    ensures apt { (d : Dimensions) → IfOk result (IsAptAsk d) }
    ensures stopped { RoseOnlyFor (G.stops gate.old) (G.stops gate.new) (IsErr result) }
{
    match op {
        UserOp::Rows(which) => Ok(list_users(users, which, rt)),
        UserOp::Cancel(uid) => {
            users.seat.cancel(uid, rt);
            let change = Some((UserChange::Cancel, Word::of(uid.bytes())));
            note_user_command(notes, user, tag, change, Outcome::Done);
            Ok(Ask::Completes)
        }
        UserOp::Look(_) | UserOp::LogIn(_) => unreachable!(),
        op => change_users(users, user, tag, op, gate, notes, rt),
    }
}

/// Reads the rows of one user, or of all.
fn list_users<U: Disk + Drop, R: Wait>(users: &mut UserDesk<U>, which: Option<Uid>, rt: &R) -> Ask
    requires no_rows { users.old.rows.items ≡ [] }
    ensures same { IsSameUserSeat users.old.seat users.new.seat }
    ensures goes { UserSeatGoesOn users.old.seat users.new.seat }
    ensures asked { AskedAt users.old.seat (to_do (UserOp.Rows which)) heard_ask
        (left users.new.rows.items users.new.seat.seen NothingAsked) (Ok result) }
    ensures apt { (d : Dimensions) → IsAptAsk d result }
{
    match users.seat.rows(which, rt) {
        Ok(rows) => {
            users.rows = rows;
            Ask::Completes
        }
        Err(cause) => Ask::Refused(cause),
    }
}

/// Makes a change of the users, and notes what came of it.
fn change_users<U: Disk + Drop, G: Gate, N: Notes, R: Wait>(
    users: &mut UserDesk<U>,
    user: &SessionUser,
    tag: &Option<Ctag>,
    op: UserOp,
    gate: &mut G,
    notes: &mut N,
    rt: &R,
) -> Result<Ask, Stopped>
    requires changing { IsChanging op }
    requires named { NamesUid op }
    requires no_rows { users.old.rows.items ≡ [] }
    ensures same { IsSameUserSeat users.old.seat users.new.seat }
    ensures goes { UserSeatGoesOn users.old.seat users.new.seat }
    ensures asked { AskedAt users.old.seat (to_do op) heard_ask
        (left users.new.rows.items users.new.seat.seen (G.asked gate.old gate.new)) result }
    ensures noted { UsersNoted (N.noted notes.old notes.new) user.now tag.now (to_do op) result }
    ensures apt { (d : Dimensions) → IfOk result (IsAptAsk d) }
    ensures stopped { RoseOnlyFor (G.stops gate.old) (G.stops gate.new) (IsErr result) }
{
    let change = user_change_of(&op);
    match users.seat.change(op, gate, rt)? {
        UserTook::Done => {
            note_user_command(notes, user, tag, change, Outcome::Done);
            Ok(Ask::Completes)
        }
        UserTook::Denied(cause) => {
            note_user_command(notes, user, tag, change, Outcome::Denied(cause));
            Ok(Ask::Refused(cause))
        }
    }
}
