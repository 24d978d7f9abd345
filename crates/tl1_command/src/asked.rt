ghost use Rattle.std.specs.Prelude.{◌≡◌, ℕ, List, [], Option, IfSome, MatchResult, Ok, Err, IfOk};
ghost use Rattle.dxc_num.specs.Dimensions.{Dimensions, IsModule};
ghost use Rattle.tl1_text.specs.Spans.{IsIn, text_at};
ghost use Rattle.dxc_model.specs.declared.conn.Cct.{Cct as ACct};
ghost use Rattle.dxc_model.specs.declared.op.Op.{Op as AnOp};
ghost use Rattle.dxc_model.specs.Operations.{ArePorts};
ghost use Rattle.tl1_command.specs.Commands.{asked_by, named_by, IsAptCommand, ends_by};
ghost use Rattle.tl1_command.specs.Meanings.{cct_named, label_named, or_one_way as one_way_or, ends_named, selection_or_all, names_all, asked as asked_for, asked_of_ends, asks_table, Ends, IsOfConnection};

use crate::code::{is_exactly, is_same};
use crate::command::{Command, Subject};
use crate::parts::Named;
use dxc_aid::{middle_of, module_of, port_of, selection_of};
use dxc_model::{Cause, Cct, CommandCode, Conn, Label, Op, Selection};
use dxc_num::{Port, Shape};

/// The CCT that a value names, none where it is empty.
#[inline(always)]
pub fn cct_of(value: &[u8]) -> Result<Option<Cct>, Cause>
    ensures { result ≡ cct_named value.now }
{
    match frequent_cct(value) {
        Some(cct) => Ok(cct),
        None => any_cct_of(value),
    }
}

/// The CCT of a value that is empty, or a CCT in capitals.
#[inline(always)]
pub fn frequent_cct(value: &[u8]) -> Option<Option<Cct>>
    ensures { IfSome result (λ c. cct_named value.now ≡ Ok c) }
{
    if value.is_empty() {
        Some(None)
    } else if is_exactly(value, b"2WAY") {
        Some(Some(Cct::TwoWay))
    } else if is_exactly(value, b"1WAY") {
        Some(Some(Cct::OneWay))
    } else {
        None
    }
}

/// The CCT of any value.
#[inline(never)]
fn any_cct_of(value: &[u8]) -> Result<Option<Cct>, Cause>
    ensures { result ≡ cct_named value.now }
{
    if value.is_empty() {
        Ok(None)
    } else if is_same(value, "1WAY") {
        Ok(Some(Cct::OneWay))
    } else if is_same(value, "2WAY") {
        Ok(Some(Cct::TwoWay))
    } else {
        Err(Cause::BadValue)
    }
}

/// The label that a value is, which may be empty.
fn label_of(value: &[u8]) -> Result<Label, Cause>
    ensures { result ≡ label_named value.now }
{
    Label::of(value).ok_or(Cause::BadValue)
}

fn or_one_way(cct: Option<Cct>) -> Cct
    ensures { result ≡ one_way_or cct }
{
    cct.unwrap_or(Cct::OneWay)
}

/// Two different ports.
#[inline(always)]
pub fn ends_of(shape: Shape, from: &[u8], to: &[u8]) -> Result<(Port, Port), Cause>
    ensures ends { MatchResult result (λ e. ends_named shape from.now to.now ≡ Ok (ends_by e))
        (λ q. ends_named shape from.now to.now ≡ Err q) }
    ensures ports { IfOk result (λ e. ArePorts shape e.0 e.1) }
{
    let from = port_of(shape, from).ok_or(Cause::BadAid)?;
    let to = port_of(shape, to).ok_or(Cause::BadAid)?;
    if from.0 == to.0 {
        return Err(Cause::SamePort);
    }
    Ok((from, to))
}

#[inline(always)]
pub fn selection_or_all_of(shape: Shape, text: &[u8]) -> Result<Selection, Cause>
    ensures { result ≡ selection_or_all shape text.now }
{
    if text.is_empty() {
        return Ok(Selection::All);
    }
    selection_of(shape, text).ok_or(Cause::BadAid)
}

/// Nothing, or ALL.
fn is_all(text: &[u8]) -> bool
    ensures { result ≡ names_all text.now }
{
    text.is_empty() || is_same(text, "ALL")
}

/// What a command with its parameters asks for, or why it is denied.
#[inline(never)]
pub fn asked(shape: Shape, code: CommandCode, unit: &[u8], named: Named) -> Result<Command, Cause>
    requires first { IsIn unit.now named.first }
    requires second { IsIn unit.now named.second }
    requires value { IsIn unit.now named.value }
    requires label { IsIn unit.now named.label }
    ensures asked { MatchResult result
        (λ c. asked_for shape code (named_by unit.now named) ≡ Ok (asked_by unit.now c))
        (λ q. asked_for shape code (named_by unit.now named) ≡ Err q) }
    ensures apt { IfOk result (IsAptCommand shape unit.now) }
{
    let first = named.first.text(unit);
    match code {
        CommandCode::ActUser => Ok(Command::ActUser {
            uid: named.first,
            pid: named.value,
        }),
        CommandCode::CancUser => Ok(Command::CancUser { uid: named.first }),
        CommandCode::RtrvHdr => Ok(Command::Header),
        CommandCode::AlwMsgAll if is_all(first) => Ok(Command::Allow),
        CommandCode::InhMsgAll if is_all(first) => Ok(Command::Inhibit),
        CommandCode::AlwMsgAll | CommandCode::InhMsgAll => Err(Cause::BadAid),
        CommandCode::RtrvCrsT0 => {
            let selection = selection_or_all_of(shape, first)?;
            Ok(Command::Table(Op::Rows(selection)))
        }
        CommandCode::EntCrsT0 | CommandCode::EdCrsT0 | CommandCode::DltCrsT0 => connection(
            shape, code, unit, named,
        ),
        CommandCode::EntEqpt => {
            let module = module_of(shape, first).ok_or(Cause::BadAid)?;
            Ok(Command::Table(Op::EnterModule(module)))
        }
        CommandCode::DltEqpt => {
            let module = module_of(shape, first).ok_or(Cause::BadAid)?;
            Ok(Command::Table(Op::DeleteModule(module)))
        }
        CommandCode::RmvMid => {
            let middle = middle_of(shape, first).ok_or(Cause::BadAid)?;
            Ok(Command::Table(Op::TakeOut(middle)))
        }
        CommandCode::RstMid => {
            let middle = middle_of(shape, first).ok_or(Cause::BadAid)?;
            Ok(Command::Table(Op::PutBack(middle)))
        }
        CommandCode::RtrvMid => Ok(Command::Show(Subject::Middle)),
        CommandCode::InitSys => Ok(Command::Table(Op::Restart)),
        CommandCode::RtrvSys => Ok(Command::Show(Subject::System)),
    }
}

/// An entry, an edit or a deletion of a connection.
#[inline(never)]
fn connection(shape: Shape, code: CommandCode, unit: &[u8], named: Named) -> Result<Command, Cause>
    requires first { IsIn unit.now named.first }
    requires second { IsIn unit.now named.second }
    requires value { IsIn unit.now named.value }
    requires label { IsIn unit.now named.label }
    requires code { IsOfConnection code }
    ensures asked { MatchResult result
        (λ c. asked_for shape code (named_by unit.now named) ≡ Ok (asked_by unit.now c))
        (λ q. asked_for shape code (named_by unit.now named) ≡ Err q) }
    ensures apt { IfOk result (IsAptCommand shape unit.now) }
{
    let cct = cct_of(named.value.text(unit))?;
    let label = label_of(named.label.text(unit))?;
    let (from, to) = ends_of(shape, named.first.text(unit), named.second.text(unit))?;
    let op = match code {
        CommandCode::DltCrsT0 => Op::Delete { from, to, cct },
        CommandCode::EdCrsT0 => Op::Edit(conn(from, to, cct, label)),
        _ => Op::Enter(conn(from, to, cct, label)),
    };
    Ok(Command::Table(op))
}

/// The ports and the CCT of a connection without a label.
#[inline(always)]
pub fn unlabelled_ends(
    shape: Shape,
    unit: &[u8],
    named: Named,
) -> Result<(Port, Port, Option<Cct>), Cause>
    requires first { IsIn unit.now named.first }
    requires second { IsIn unit.now named.second }
    requires value { IsIn unit.now named.value }
    requires label { text_at unit.now named.label ≡ [] }
    ensures asked { (makes : Ends → Option ACct → List ℕ → AnOp)
        → MatchResult result (λ r. asked_of_ends shape (named_by unit.now named) makes ≡ Ok
        (asks_table (makes (record { from = r.0; to = r.1 }) r.2 [])))
        (λ q. asked_of_ends shape (named_by unit.now named) makes ≡ Err q) }
    ensures ports { IfOk result (λ r. ArePorts shape r.0 r.1) }
{
    let cct = cct_of(named.value.text(unit))?;
    let (from, to) = ends_of(shape, named.first.text(unit), named.second.text(unit))?;
    Ok((from, to, cct))
}

/// A connection without a label.
#[inline(always)]
pub fn unlabelled(from: Port, to: Port, cct: Option<Cct>) -> Conn
    ensures { result ≡ record { from = from; to = to; cct = one_way_or cct; label = [] } }
{
    conn(from, to, cct, Label::default())
}

fn conn(from: Port, to: Port, cct: Option<Cct>, label: Label) -> Conn
    ensures { result ≡ record { from = from; to = to; cct = one_way_or cct; label = label } }
{
    let cct = or_one_way(cct);
    Conn {
        from,
        to,
        cct,
        label,
    }
}
