//! What a unit asks of the users.
ghost use Rattle.std.specs.Prelude.{◌≡◌, ◌≢◌, ◌↔◌, IfOk, IsErrOf, true, ◌≤◌, ◌<◌, is_some, length, map, Some, None, Ok, Err};
ghost use Rattle.std.specs.Str.{bytes_eq};
ghost use Rattle.tl1_text.specs.Spans.{AreBlocksOf, block_at};
ghost use Rattle.shelf_file.specs.Keys.{is_uid as reads_as_uid};
ghost use Rattle.tl1_command.specs.Blocks.{code_text};
ghost use Rattle.tl1_command.specs.Parts.{AreParts};
ghost use Rattle.tl1_users.specs.Commands.{NamesUid, asked as asked_for, code_named, class_given, class_of as class_named, first_refusal, has_too_many as too_many, is_missing as misses, is_own as is_own_user, is_not_entitled as not_entitled, is_not_logged_in as not_logged_in, named_in, own_given, pid_given, rows_asked, uid_given, user_meaning};

use crate::code::{UserCode, code_of, is_for_class_s};
use crate::op::{Pid, UserOp};
use arrayvec::ArrayVec;
use dxc_model::{Cause, Class, SessionUser, Uid};
use shelf_file::is_uid;
use tl1_command::checks::{has_further, has_general, is_other_target};
use tl1_command::parts::{Parts, block_text, parts_of};
use tl1_text::{Blocks, Ctag, Sid};

fn is_not_logged_in(user: &SessionUser) -> bool
    ensures { result ≡ not_logged_in user.now }
{
    matches!(user, SessionUser::Nobody)
}

fn is_not_entitled(code: UserCode, user: &SessionUser) -> bool
    ensures { result ≡ not_entitled code user.now }
{
    match user {
        SessionUser::Nobody => false,
        SessionUser::User { class, .. } => is_for_class_s(code) && *class != Class::S,
    }
}

// A parameter that isn't optional is empty.
fn is_missing(code: UserCode, uid: &[u8], pid: &[u8], second: &[u8]) -> bool
    ensures { result ≡ misses code (record { uid = uid.now; pid = pid.now; second = second.now }) }
{
    match code {
        UserCode::Enter | UserCode::EditPid => {
            uid.is_empty() || pid.is_empty() || second.is_empty()
        }
        UserCode::Edit => uid.is_empty() || (pid.is_empty() && second.is_empty()),
        UserCode::Delete | UserCode::Cancel => uid.is_empty(),
        UserCode::Rows => false,
    }
}

fn uid_of(text: &[u8]) -> Result<Uid, Cause>
    ensures given { result ≡ uid_given text.now }
    ensures valid { IfOk result (λ uid. reads_as_uid uid ≡ true) }
{
    if !is_uid(text) {
        return Err(Cause::BadAid);
    }
    Uid::of(text).ok_or(Cause::BadAid)
}

fn is_text(text: &[u8], name: &str) -> bool
    ensures { result ≡ bytes_eq text.now name.now }
{
    text == name.as_bytes()
}

fn class_of(text: &[u8]) -> Result<Class, Cause>
    ensures { result ≡ class_named text.now }
{
    if is_text(text, "R") {
        Ok(Class::R)
    } else if is_text(text, "P") {
        Ok(Class::P)
    } else if is_text(text, "S") {
        Ok(Class::S)
    } else {
        Err(Cause::BadValue)
    }
}

fn class_if_given(text: &[u8]) -> Result<Option<Class>, Cause>
    ensures { result ≡ class_given text.now }
{
    if text.is_empty() {
        return Ok(None);
    }
    let class = class_of(text)?;
    Ok(Some(class))
}

fn pid_of(text: &[u8]) -> Pid
    requires { length text.now ≤ 2048 }
    ensures { result.items ≡ text.now }
{
    let mut pid = ArrayVec::new();
    let _ = pid.try_extend_from_slice(text);
    pid
}

fn pid_if_given(text: &[u8]) -> Option<Pid>
    requires { length text.now ≤ 2048 }
    ensures { result ≡ pid_given text.now }
{
    if text.is_empty() {
        return None;
    }
    Some(pid_of(text))
}

fn rows_of(text: &[u8]) -> Result<UserOp, Cause>
    ensures rows { result ≡ rows_asked text.now }
    ensures named { IfOk result NamesUid }
{
    if text.is_empty() {
        return Ok(UserOp::Rows(None));
    }
    let uid = uid_of(text)?;
    Ok(UserOp::Rows(Some(uid)))
}

// It is the session's user, case aside.
fn is_own(user: &SessionUser, uid: &[u8]) -> bool
    ensures { result ≡ is_own_user user.now uid.now }
{
    match user {
        SessionUser::Nobody => false,
        SessionUser::User { uid: own, .. } => uid.eq_ignore_ascii_case(own.bytes()),
    }
}

fn own_uid_of(user: &SessionUser, text: &[u8]) -> Result<Uid, Cause>
    ensures given { result ≡ own_given user.now text.now }
    ensures valid { IfOk result (λ uid. reads_as_uid uid ≡ true) }
{
    let uid = uid_of(text)?;
    if !is_own(user, text) {
        return Err(Cause::OtherUser);
    }
    Ok(uid)
}

// What a command with its parameters asks for, or why it is denied.
fn asked(
    user: &SessionUser,
    code: UserCode,
    uid: &[u8],
    pid: &[u8],
    second: &[u8],
) -> Result<UserOp, Cause>
    requires pid { length pid.now ≤ 2048 }
    requires second { length second.now ≤ 2048 }
    ensures asked { result ≡ asked_for user.now code
        (record { uid = uid.now; pid = pid.now; second = second.now }) }
    ensures named { IfOk result NamesUid }
{
    match code {
        UserCode::Enter => {
            let class = class_of(second)?;
            let uid = uid_of(uid)?;
            let pid = pid_of(pid);
            Ok(UserOp::Enter { uid, pid, class })
        }
        UserCode::Edit => {
            let class = class_if_given(second)?;
            let uid = uid_of(uid)?;
            let pid = pid_if_given(pid);
            Ok(UserOp::Edit { uid, pid, class })
        }
        UserCode::Delete => {
            let uid = uid_of(uid)?;
            Ok(UserOp::Delete(uid))
        }
        UserCode::Cancel => {
            let uid = uid_of(uid)?;
            Ok(UserOp::Cancel(uid))
        }
        UserCode::Rows => rows_of(uid),
        UserCode::EditPid => {
            let uid = own_uid_of(user, uid)?;
            let (old, new) = (pid_of(pid), pid_of(second));
            Ok(UserOp::EditPid { uid, old, new })
        }
    }
}

// A parameter of the AID block or of a payload block that the command doesn't name isn't empty.
fn has_too_many(code: UserCode, unit: &[u8], blocks: &Blocks, parts: &Parts) -> bool
    requires short { length unit.now ≤ 2047 }
    requires blocks { AreBlocksOf unit.now blocks.now.block.items }
    requires parts { AreParts unit.now (map (block_at unit.now) blocks.now.block.items) parts.now }
    ensures { result ≡ too_many code (map (block_at unit.now) blocks.now.block.items) }
{
    parts.aids.has_value_from(unit, 1)
        || parts.payload.has_value_from(unit, code.values())
        || has_further(unit, blocks)
}

// The second parameter of a unit's first payload block: a class, or a new PID.
fn second_in<'a>(unit: &'a [u8], blocks: &Blocks, parts: &Parts) -> &'a [u8]
    requires short { length unit.now ≤ 2047 }
    requires parts { AreParts unit.now (map (block_at unit.now) blocks.now.block.items) parts.now }
    ensures text { result.now ≡ (named_in (map (block_at unit.now) blocks.now.block.items)).second }
    ensures short { length result.now ≤ 2048 }
{
    parts.payload.second.text(unit)
}

// The first cause of those that code, user and the parts of the unit show, before the parameters are read.
fn refusal(
    sid: &Sid,
    user: &SessionUser,
    code: UserCode,
    unit: &[u8],
    blocks: &Blocks,
    parts: &Parts,
) -> Option<Cause>
    requires short { length unit.now ≤ 2047 }
    requires blocks { AreBlocksOf unit.now blocks.now.block.items }
    requires parts { AreParts unit.now (map (block_at unit.now) blocks.now.block.items) parts.now }
    ensures first { result ≡ first_refusal sid.now user.now code
        (map (block_at unit.now) blocks.now.block.items) }
    ensures known { result ≢ Some Cause.UnknownCommand }
{
    let uid = parts.aids.first.text(unit);
    let pid = parts.payload.first.text(unit);
    let second = second_in(unit, blocks, parts);
    if Ctag::of(block_text(unit, blocks, 3)).is_none() {
        Some(Cause::BadCtag)
    } else if is_other_target(sid, block_text(unit, blocks, 1)) {
        Some(Cause::OtherTarget)
    } else if is_not_logged_in(user) {
        Some(Cause::NotLoggedIn)
    } else if is_not_entitled(code, user) {
        Some(Cause::NotEntitled)
    } else if is_missing(code, uid, pid, second) {
        Some(Cause::Missing)
    } else if has_too_many(code, unit, blocks, parts) {
        Some(Cause::TooMany)
    } else if has_general(unit, blocks) {
        Some(Cause::GeneralBlock)
    } else {
        None
    }
}

/// Whether a unit's code is that of a command that keeps users. The blocks are the unit's.
// Asked first: an operation has room for PIDs, which is cleared at the entry of each function that holds one.
pub fn is_of_users(unit: &[u8], blocks: &Blocks) -> bool
    requires { AreBlocksOf unit.now blocks.now.block.items }
    ensures { result ≡ is_some
        (code_named (code_text (map (block_at unit.now) blocks.now.block.items))) }
{
    code_of(block_text(unit, blocks, 0)).is_some()
}

/// What a unit asks of the users, or the first cause that holds, of UnknownCommand, BadCtag, OtherTarget, NotLoggedIn,
/// NotEntitled, Missing, TooMany, GeneralBlock, BadValue, BadAid and OtherUser in this order. The blocks are the unit's.
///
/// It is an unknown command exactly where its code isn't one of those that keep users.
#[tactic(auto, unfolding(crate::specs::Commands::user_meaning))]
pub fn user_command_of(
    sid: &Sid,
    user: SessionUser,
    unit: &[u8],
    blocks: &Blocks,
) -> Result<UserOp, Cause>
    requires short { length unit.now ≤ 2047 }
    requires blocks { AreBlocksOf unit.now blocks.now.block.items }
    ensures meaning { result ≡ user_meaning sid.now user
        (map (block_at unit.now) blocks.now.block.items) }
    ensures named { IfOk result NamesUid }
    ensures unknown { IsErrOf result Cause.UnknownCommand ↔
        (code_named (code_text (map (block_at unit.now) blocks.now.block.items)) ≡ None) }
{
    let code = code_of(block_text(unit, blocks, 0)).ok_or(Cause::UnknownCommand)?;
    let parts = parts_of(unit, blocks);
    if let Some(cause) = refusal(sid, &user, code, unit, blocks, &parts) {
        return Err(cause);
    }
    let uid = parts.aids.first.text(unit);
    let pid = parts.payload.first.text(unit);
    asked(&user, code, uid, pid, second_in(unit, blocks, &parts))
}
