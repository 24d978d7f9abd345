//! What a unit means, by its text, the shelf and who is logged in: nobody is asked yet, and nothing is done.
ghost use Rattle.std.specs.Prelude.{◌≡◌, ◌≤◌, IfOk, is_some, length, map, Result};
ghost use Rattle.dxc_num.specs.Dimensions.{Dimensions};
ghost use Rattle.dxc_model.specs.declared.cause.Cause.{Cause as ACause};
ghost use Rattle.dxc_model.specs.declared.user.SessionUser.{SessionUser as AUser};
ghost use Rattle.tl1_text.specs.Spans.{AreBlocksOf, block_at};
ghost use Rattle.tl1_text.specs.Tags.{ctag_of as tag_in};
ghost use Rattle.tl1_text.specs.Units.{whole};
ghost use Rattle.tl1_command.specs.Commands.{asked_by, asked_often, IsAptCommand, IsAptOften, IsAptOp};
ghost use Rattle.tl1_command.specs.Meanings.{cancels};
ghost use Rattle.tl1_users.specs.Commands.{NamesUid, user_meaning};
ghost use Rattle.tl1_users.specs.declared.op.UserOp.{UserOp as AUserOp};
ghost use Rattle.craft_session.specs.Asks.{IsAptAsk};
ghost use Rattle.craft_session.specs.Hearing.{Heard, nothing};
ghost use Rattle.craft_session.specs.Meanings.{is_other_user as other_user, session_ask, session_wants, table_ask, tag_of};
ghost use Rattle.craft_session.specs.Readings.{IsCommand, IsReadAs, IsReadIn, IsReadOf, IsReadOfUsers, read_as};

use crate::ask::{Ask, Meaning};
use crate::secrets::Operation;
use dxc_model::{Cause, Cct, Conn, Label, Op, SessionUser};
use shelf_file::Shelf;
use tl1_command::{Command, Frequent, command_with, frequent_of};
use tl1_text::grammar::blocks;
use tl1_text::{Blocks, Ctag, ctag_in, ctag_of};
use tl1_users::{is_of_users, user_command_of};

/// Reads a whole unit, and puts down its tag, and what it asks of the session or of the users.
// What is asked is large, so it is written where it is made out, and handed on by reference.
#[inline(always)]
pub fn read(
    shelf: &Shelf,
    user: &SessionUser,
    unit: &[u8],
    tag: &mut Option<Ctag>,
    ask: &mut Ask,
    asked: &mut Operation,
) -> Meaning
    requires short { length unit.now ≤ 2047 }
    ensures tag { tag.new ≡ tag_of (whole unit.now) }
    ensures read { IsReadOf shelf.now user.now (whole unit.now)
        (read_as unit.now result ask.new asked.new.op) }
{
    let Ok(found) = blocks(unit) else {
        *tag = ctag_of(unit);
        *ask = Ask::Refused(Cause::BadText);
        return Meaning::Session;
    };
    *tag = ctag_in(unit, &found);
    let tagged = tag.is_some();
    match frequent_of(shelf.shape(), shelf.sid(), user, unit, &found, tagged) {
        Ok(often) => {
            on_frequent(often, ask);
            return Meaning::Session;
        }
        Err(None) => {}
        Err(Some(cause)) => match cause {
            // It may be one of the users' commands, which this language doesn't know.
            Cause::UnknownCommand => {}
            cause => {
                *ask = Ask::Refused(cause);
                return Meaning::Session;
            }
        },
    }
    read_in(shelf, user, unit, &found, tagged, ask, asked)
}

/// Reads a unit in the grammar. The blocks are the unit's. One that is no command may be one of the users'.
#[inline(never)]
fn read_in(
    shelf: &Shelf,
    user: &SessionUser,
    unit: &[u8],
    found: &Blocks,
    tagged: bool,
    ask: &mut Ask,
    asked: &mut Operation,
) -> Meaning
    requires short { length unit.now ≤ 2047 }
    requires blocks { AreBlocksOf unit.now found.now.block.items }
    requires tagged { tagged ≡ is_some (tag_in unit.now) }
    ensures read { IsReadIn shelf.now user.now (map (block_at unit.now) found.now.block.items)
        (read_as unit.now result ask.new asked.new.op) }
{
    match &command_with(shelf.shape(), shelf.sid(), user, unit, found, tagged) {
        Ok(command) => on_command(user, unit, command, ask),
        Err(cause) => match cause {
            Cause::UnknownCommand => read_users(shelf, user, unit, found, ask, asked),
            _ => {
                *ask = Ask::Refused(*cause);
                Meaning::Session
            }
        },
    }
}

/// Reads a unit that may be a command of the users. The blocks are the unit's.
fn read_users(
    shelf: &Shelf,
    user: &SessionUser,
    unit: &[u8],
    found: &Blocks,
    ask: &mut Ask,
    asked: &mut Operation,
) -> Meaning
    requires short { length unit.now ≤ 2047 }
    requires blocks { AreBlocksOf unit.now found.now.block.items }
    ensures read { IsReadOfUsers shelf.now user.now (map (block_at unit.now) found.now.block.items)
        (read_as unit.now result ask.new asked.new.op) }
{
    if is_of_users(unit, found) {
        read_operation(shelf, user, unit, found, asked);
        Meaning::Users
    } else {
        *ask = Ask::Refused(Cause::UnknownCommand);
        Meaning::Session
    }
}

/// Puts down what a unit asks of the users. The blocks are the unit's.
// Apart, since an operation holds a PID, and a unit that asks for none clears no room of it.
#[inline(never)]
fn read_operation(
    shelf: &Shelf,
    user: &SessionUser,
    unit: &[u8],
    found: &Blocks,
    asked: &mut Operation,
)
    requires short { length unit.now ≤ 2047 }
    requires blocks { AreBlocksOf unit.now found.now.block.items }
    ensures meaning { asked.new.op ≡ user_meaning shelf.now.sid user.now
        (map (block_at unit.now) found.now.block.items) }
    ensures named { IfOk asked.new.op NamesUid }
    ensures command { IfOk asked.new.op IsCommand }
{
    asked.op = user_command_of(shelf.sid(), *user, unit, found);
}

/// What a command means.
fn on_command(user: &SessionUser, unit: &[u8], command: &Command, ask: &mut Ask) -> Meaning
    requires within { (d : Dimensions) × IsAptCommand d unit.now command.now }
    ensures read { (d : Dimensions) → (op : Result AUserOp ACause)
        → IsAptCommand d unit.now command.now
        → IsReadAs d user.now (session_wants user.now (asked_by unit.now command.now))
        (λ x. session_ask user.now x (asked_by unit.now command.now))
        (read_as unit.now result ask.new op) }
{
    match command {
        Command::ActUser { uid, pid } => Meaning::LogIn {
            uid: *uid,
            pid: *pid,
        },
        Command::CancUser { uid } => {
            on_log_out(user, uid.text(unit), ask);
            Meaning::Session
        }
        Command::Header => {
            *ask = Ask::Completes;
            Meaning::Session
        }
        Command::Allow => {
            *ask = Ask::Allows;
            Meaning::Session
        }
        Command::Inhibit => {
            *ask = Ask::Inhibits;
            Meaning::Session
        }
        Command::Show(subject) => {
            *ask = Ask::Shows(*subject);
            Meaning::Session
        }
        Command::Table(op) => {
            on_table(op, ask);
            Meaning::Session
        }
    }
}

/// A log-out, which may name a user.
fn on_log_out(user: &SessionUser, name: &[u8], ask: &mut Ask)
    ensures ask { (x : Heard) → ask.new ≡ session_ask user.now x (cancels name.now) }
    ensures apt { (d : Dimensions) → IsAptAsk d ask.new }
{
    if is_other_user(user, name) {
        *ask = Ask::Refused(Cause::OtherUser);
    } else {
        *ask = Ask::LogsOut;
    }
}

/// A name is given, and it isn't the session's user, case aside.
fn is_other_user(user: &SessionUser, name: &[u8]) -> bool
    ensures { result ≡ other_user user.now name.now }
{
    match user {
        SessionUser::Nobody => false,
        SessionUser::User { uid, .. } => {
            !name.is_empty() && !name.eq_ignore_ascii_case(uid.bytes())
        }
    }
}

/// What a frequent unit asks.
#[inline(always)]
fn on_frequent(often: Frequent, ask: &mut Ask)
    ensures asked { (user : AUser) (x : Heard)
        → session_ask user x (asked_often often) ≡ ask.new }
    ensures unasked { (user : AUser) → session_wants user (asked_often often) ≡ nothing }
    ensures apt { (d : Dimensions) → IsAptOften d often → IsAptAsk d ask.new }
{
    match often {
        Frequent::Header => *ask = Ask::Completes,
        Frequent::Rows(selection) => *ask = Ask::Lists(selection),
        Frequent::Enter { from, to, cct } => *ask = Ask::Changes(Op::Enter(Conn {
            from,
            to,
            cct: cct.unwrap_or(Cct::OneWay),
            label: Label::default(),
        })),
        Frequent::Delete { from, to, cct } => *ask = Ask::Changes(Op::Delete { from, to, cct }),
    }
}

/// An operation on the table, which is no look.
fn on_table(op: &Op, ask: &mut Ask)
    requires { (d : Dimensions) × IsAptOp d op.now }
    ensures ask { ask.new ≡ table_ask op.now }
    ensures apt { (d : Dimensions) → IsAptOp d op.now → IsAptAsk d ask.new }
{
    match op {
        Op::Enter(_)
        | Op::Delete { .. }
        | Op::Edit(_)
        | Op::EnterModule(_)
        | Op::DeleteModule(_)
        | Op::TakeOut(_)
        | Op::PutBack(_) => *ask = Ask::Changes(*op),
        Op::Rows(selection) => *ask = Ask::Lists(*selection),
        Op::Restart => *ask = Ask::Restarts,
        Op::Look(_) => unreachable!(),
    }
}
