//! What a session notes of a unit, after what came of it.
ghost use Rattle.std.specs.Prelude.{◌≡◌, List};
ghost use Rattle.dxc_model.specs.declared.conn.Conn.{Conn};
ghost use Rattle.craft_session.specs.Asks.{reply_of};
ghost use Rattle.craft_session.specs.Noted.{changes_user, command_notes, login_notes, name_of as user_name, notes_of, outcome_of as outcome_is, port_at as port_in, refusal_notes, users_command_notes, what_of as what_is, word_of as word_in};

use crate::ask::{Acted, Ask};
use dxc_model::{Cause, Op, SessionUser};
use dxc_notes::{
    Command, Note, Notes, Outcome, PortAt, Standing, UserChange, UserCommand, What, Word,
};
use dxc_num::{Port, Shape};
use tl1_command::Subject;
use tl1_text::Ctag;
use tl1_users::UserOp;

/// Notes what came of what a unit of this user asked, where that is noted, and asks what stands of the program, where the unit does. The ports are of
/// this shape.
#[inline(always)]
pub(crate) fn note_unit<N: Notes>(
    notes: &mut N,
    shape: Shape,
    user: &SessionUser,
    tag: &Option<Ctag>,
    ask: &Ask,
    acted: &Acted,
    standing: &mut Standing,
)
    ensures { (rows : List Conn) → N.noted notes.old notes.new
        (notes_of shape user.now tag.now ask.now (reply_of acted.now rows)) }
{
    match ask {
        Ask::LogsIn(user) => note_login(notes, user),
        Ask::Refused(cause) => note_refusal(notes, *cause),
        Ask::Restarts => note_command(notes, user, tag, What::Restart, outcome_of(acted)),
        Ask::Changes(op) => {
            note_command(notes, user, tag, what_of(shape, op), outcome_of(acted));
        }
        Ask::LogsOut => notes.note(Note::LoggedOut),
        Ask::Completes => {}
        Ask::Allows => {}
        Ask::Inhibits => {}
        Ask::Lists(_) => {}
        Ask::Shows(subject) => learn(notes, *subject, standing),
    }
}

// Of the program nothing but RTRV-SYS asks.
fn learn<N: Notes>(notes: &N, subject: Subject, standing: &mut Standing) {
    match subject {
        Subject::Middle => {}
        Subject::System => *standing = notes.standing(),
    }
}

fn note_login<N: Notes>(notes: &mut N, user: &SessionUser)
    ensures { N.noted notes.old notes.new (login_notes user.now) }
{
    match user {
        SessionUser::Nobody => {}
        SessionUser::User { uid, class } => {
            notes.note(Note::LoggedIn(Word::of(uid.bytes()), *class));
        }
    }
}

// Of units that are refused for what they ask, a log-in's is noted.
fn note_refusal<N: Notes>(notes: &mut N, cause: Cause)
    ensures { N.noted notes.old notes.new (refusal_notes cause) }
{
    match cause {
        Cause::BadIdentity => notes.note(Note::LogInDenied),
        _ => {}
    }
}

// A command that changes something, or restarts the controller.
fn note_command<N: Notes>(
    notes: &mut N,
    user: &SessionUser,
    tag: &Option<Ctag>,
    what: What,
    outcome: Outcome,
)
    ensures { N.noted notes.old notes.new (command_notes user.now tag.now what outcome) }
{
    notes.note(Note::Asked(Command {
        user: name_of(user),
        tag: word_of(tag),
        what,
        outcome,
    }));
}

/// What an operation does to the users or to their sessions, and to which, where it does.
pub(crate) fn user_change_of(op: &UserOp) -> Option<(UserChange, Word)>
    ensures { result ≡ changes_user op.now }
{
    match op {
        UserOp::Enter { uid, .. } => Some((UserChange::Enter, Word::of(uid.bytes()))),
        UserOp::Edit { uid, .. } => Some((UserChange::Edit, Word::of(uid.bytes()))),
        UserOp::Delete(uid) => Some((UserChange::Delete, Word::of(uid.bytes()))),
        UserOp::EditPid { uid, .. } => Some((UserChange::EditPid, Word::of(uid.bytes()))),
        UserOp::Cancel(uid) => Some((UserChange::Cancel, Word::of(uid.bytes()))),
        UserOp::Rows(_) | UserOp::Look(_) | UserOp::LogIn(_) => None,
    }
}

/// Notes what came of an operation on the users, where it does something to them.
pub(crate) fn note_user_command<N: Notes>(
    notes: &mut N,
    user: &SessionUser,
    tag: &Option<Ctag>,
    change: Option<(UserChange, Word)>,
    outcome: Outcome,
)
    ensures { N.noted notes.old notes.new
        (users_command_notes user.now tag.now change outcome) }
{
    match change {
        Some((change, changed)) => notes.note(Note::UsersAsked(UserCommand {
            user: name_of(user),
            tag: word_of(tag),
            change,
            changed,
            outcome,
        })),
        None => {}
    }
}

fn outcome_of(acted: &Acted) -> Outcome
    ensures { (rows : List Conn) → result ≡ outcome_is (reply_of acted.now rows) }
{
    match acted {
        Acted::Denied(cause) => Outcome::Denied(*cause),
        Acted::Completed => Outcome::Done,
        Acted::Listed => Outcome::Done,
        Acted::Shown(_, _) => Outcome::Done,
        Acted::Restarted => Outcome::Done,
    }
}

fn word_of(tag: &Option<Ctag>) -> Word
    ensures { result ≡ word_in tag.now }
{
    match tag {
        Some(tag) => Word::of(tag.bytes()),
        None => Word::of(b""),
    }
}

fn name_of(user: &SessionUser) -> Word
    ensures { result ≡ user_name user.now }
{
    match user {
        SessionUser::Nobody => Word::of(b""),
        SessionUser::User { uid, .. } => Word::of(uid.bytes()),
    }
}

fn port_at(shape: Shape, port: Port) -> PortAt
    ensures { result ≡ port_in shape port }
{
    PortAt {
        number: port.0,
        slots: shape.slots(),
    }
}

fn what_of(shape: Shape, op: &Op) -> What
    ensures { result ≡ what_is shape op.now }
{
    match op {
        Op::Enter(conn) => What::Enter {
            from: port_at(shape, conn.from),
            to: port_at(shape, conn.to),
        },
        Op::Edit(conn) => What::Edit {
            from: port_at(shape, conn.from),
            to: port_at(shape, conn.to),
        },
        Op::Delete { from, to, .. } => What::Delete {
            from: port_at(shape, *from),
            to: port_at(shape, *to),
        },
        Op::EnterModule(module) => What::EnterModule(*module),
        Op::DeleteModule(module) => What::DeleteModule(*module),
        Op::TakeOut(middle) => What::TakeOut(middle.0),
        Op::PutBack(middle) => What::PutBack(middle.0),
        Op::Rows(_) | Op::Look(_) => What::Nothing,
        Op::Restart => What::Restart,
    }
}
