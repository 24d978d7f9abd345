//! What is done with the users, as bytes that a row can name.
ghost use Rattle.std.specs.Prelude.{◌↔◌, IfOk, IsTrue, List, OnOk, ◌≡◌};
ghost use Rattle.user_admin.specs.declared.op.UserEntry.{UserEntry as Entry};
ghost use Rattle.user_admin.specs.Histories.{Opening};
ghost use Rattle.tl1_users.specs.Commands.{NamesUid};
ghost use Rattle.user_admin.specs.States.{StandsFor};
ghost use Rattle.user_admin.specs.Verdicts.{IsChanging};

use anyhow::{Context, Result};
use dxc_disk::Disk;
use dxc_model::{Cause, Class, SessionUser, Uid};
use dxc_outside::{AlwaysGo, Stopped};
use std::alloc::Global;
use tl1_text::Sid;
use tl1_text::grammar::blocks;
use tl1_users::{UserOp, user_command_of};
use user_admin::{UserDone, UserState};
use worked_common::{Line, two};

fn letter_of(class: Class) -> u8 {
    match class {
        Class::R => b'R',
        Class::P => b'P',
        Class::S => b'S',
    }
}

fn push_user(text: &mut Vec<u8>, uid: Uid, class: Class) -> Result<()> {
    if !text.is_empty() {
        text.push(b' ')?;
    }
    text.extend_from_slice(uid.bytes())?;
    text.push(b':')?;
    text.push(letter_of(class))?;
    Ok(())
}

/// All users in order of their names, as NAME:CLASS.
pub fn all_rows<D: Disk>(alloc: Global, state: &UserState<D>) -> Result<Vec<u8>> {
    let mut text = Vec::new(alloc);
    for i in 0..64 {
        if let Some(user) = state.user(i) {
            push_user(&mut text, user.uid, user.class)?;
        }
    }
    Ok(text)
}

fn text_of(alloc: Global, text: &str) -> Result<Vec<u8>> {
    Ok(text.as_bytes().to_vec(alloc)?)
}

fn rows_text<D: Disk>(alloc: Global, state: &UserState<D>, which: &Option<Uid>) -> Result<Vec<u8>> {
    let rows = match state.rows(which) {
        Ok(rows) => rows,
        Err(cause) => return text_of(alloc, cause.text()),
    };
    let mut text = Vec::new(alloc);
    for row in rows.as_slice() {
        push_user(&mut text, row.uid, row.class)?;
    }
    Ok(text)
}

fn class_text(alloc: Global, class: Option<Class>) -> Result<Vec<u8>> {
    let mut text = Vec::new(alloc);
    text.push(match class {
        Some(class) => letter_of(class),
        None => b'-',
    })?;
    Ok(text)
}

// What a unit of ANNA, of class S, asks.
fn op_of(sid: &Sid, unit: &[u8]) -> Result<UserOp, Cause>
    ensures { IfOk result NamesUid }
{
    if unit.len() > 2047 {
        return Err(Cause::TooLong);
    }
    let user = SessionUser::User {
        uid: Uid::of(b"ANNA").unwrap_or_default(),
        class: Class::S,
    };
    match blocks(unit) {
        Ok(blocks) => user_command_of(sid, user, unit, &blocks),
        Err(_) => Err(Cause::BadText),
    }
}

fn is_changing(op: &UserOp) -> bool
    ensures { IsTrue result ↔ IsChanging op.now }
{
    match op {
        UserOp::Enter { .. } | UserOp::Edit { .. } | UserOp::Delete(_) | UserOp::EditPid { .. } =>
            true,
        UserOp::Rows(_) | UserOp::Look(_) | UserOp::LogIn(_) | UserOp::Cancel(_) => false,
    }
}

fn change<D: Disk>(state: &mut UserState<D>, op: &UserOp) -> &'static str
    requires changing { IsChanging op.now }
    requires named { NamesUid op.now }
    requires stands { (o : Opening) × (h : List Entry) × StandsFor D.told D.state o state.old h }
    ensures stands { (o : Opening) × (h : List Entry) × StandsFor D.told D.state o state.new h }
{
    let done = state.change(op, &mut AlwaysGo);
    text_when(&done)
}

fn text_when(done: &Result<UserDone, Stopped>) -> &'static str {
    match done {
        Ok(UserDone::Done(_)) => "COMPLD",
        Ok(UserDone::Denied(cause)) => cause.text(),
        Err(Stopped) => "STOPPED",
    }
}

fn answer<D: Disk>(
    alloc: Global,
    sid: &Sid,
    state: &mut UserState<D>,
    unit: &[u8],
) -> Result<Vec<u8>>
    requires stands { (o : Opening) × (h : List Entry) × StandsFor D.told D.state o state.old h }
    ensures stands { (o : Opening) × (h : List Entry) × StandsFor D.told D.state o state.new h }
{
    let op = match op_of(sid, unit) {
        Ok(op) => op,
        Err(cause) => return text_of(alloc, cause.text()),
    };
    if is_changing(&op) {
        return text_of(alloc, change(state, &op));
    }
    match &op {
        UserOp::Rows(which) => rows_text(alloc, state, which),
        _ => Ok(Vec::new(alloc)),
    }
}

/// What comes of a line's step.
pub fn outcome_of<D: Disk>(
    alloc: Global,
    sid: &Sid,
    state: &mut UserState<D>,
    line: Line,
) -> Result<Vec<u8>>
    requires stands { (o : Opening) × (h : List Entry) × StandsFor D.told D.state o state.old h }
    ensures stands { (o : Opening) × (h : List Entry) × StandsFor D.told D.state o state.new h }
{
    match line.word {
        "ask" => answer(alloc, sid, state, line.rest.as_bytes()),
        "login" => {
            let (uid, pid) = two(line.rest)?;
            class_text(alloc, state.login_now(uid.as_bytes(), pid.as_bytes()))
        }
        "list" => all_rows(alloc, state),
        _ => None.context("the word isn't known"),
    }
}
