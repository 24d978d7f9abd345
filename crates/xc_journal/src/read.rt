ghost use Rattle.std.specs.Prelude.{◌≡◌, ◌⊎◌, ◌↔◌, ◌∷◌, [], ℕ, List, IfSome, IsTrue, MatchOption};
ghost use Rattle.dxc_model.specs.declared.op.Change.{Change};
ghost use Rattle.roll_plan.specs.declared.op.Choice.{Choice};
ghost use Rattle.xc_journal.specs.Spelling.{spelling};
ghost use Rattle.xc_journal.specs.Entries.{FitsChange, MayChoose, IsOfFirstVersion, IsEntry};
ghost use Rattle.xc_journal.specs.Reading.{read_cct, read_label, read_conn, read_change, read_chain, read_choice, read_choices};

use crate::write::spell;
use arrayvec::ArrayVec;
use byteorder::{BigEndian, ByteOrder};
use dxc_model::{Cct, Change, Conn, Label};
use dxc_num::{Middle, Port};
use roll_plan::{Chain, Choice};

fn cct_of(byte: u8) -> Cct
    ensures { result ≡ read_cct byte }
{
    if byte == 0 { Cct::OneWay } else { Cct::TwoWay }
}

fn label_in(bytes: &[u8; 64]) -> Option<Label>
    ensures { result ≡ read_label bytes.now }
{
    let length = bytes[14] as usize;
    if length > Label::MOST {
        return None;
    }
    Label::of(&bytes[15..15 + length])
}

fn conn_in(bytes: &[u8; 64]) -> Option<Conn>
    ensures { result ≡ read_conn bytes.now }
{
    let label = label_in(bytes)?;
    Some(Conn {
        from: Port(BigEndian::read_u16(&bytes[2..])),
        to: Port(BigEndian::read_u16(&bytes[4..])),
        cct: cct_of(bytes[6]),
        label,
    })
}

// What the bytes are where they are a record; the same of those below.
#[inline(always)]
fn change_in(bytes: &[u8; 64]) -> Option<Change>
    ensures change { result ≡ read_change bytes.now }
    ensures fits { IfSome result FitsChange }
{
    Some(match bytes[1] {
        1 => Change::Enter(conn_in(bytes)?),
        2 => Change::Delete(conn_in(bytes)?),
        3 => Change::Edit(conn_in(bytes)?),
        4 => Change::EnterModule(BigEndian::read_u16(&bytes[2..])),
        5 => Change::DeleteModule(BigEndian::read_u16(&bytes[2..])),
        6 => Change::TakeOut(Middle(bytes[3])),
        7 => Change::PutBack(Middle(bytes[3])),
        _ => return None,
    })
}

fn chain_of(kind: u8, other: u8) -> Chain
    ensures { result ≡ read_chain kind other }
{
    match kind {
        0 => Chain::Direct,
        1 => Chain::Row(Middle(other)),
        _ => Chain::Column(Middle(other)),
    }
}

fn choice_of(middle: u8, kind: u8, other: u8) -> Choice
    ensures { result ≡ read_choice middle kind other }
{
    Choice {
        middle: Middle(middle),
        chain: chain_of(kind, other),
    }
}

fn one(first: Choice) -> ArrayVec<Choice, 2>
    ensures { result.items ≡ first ∷ [] }
{
    let mut list = ArrayVec::new();
    list.push(first);
    list
}

fn two(first: Choice, second: Choice) -> ArrayVec<Choice, 2>
    ensures { result.items ≡ first ∷ second ∷ [] }
{
    let mut list = one(first);
    list.push(second);
    list
}

fn choices_in(bytes: &[u8; 64]) -> ArrayVec<Choice, 2>
    ensures { result.items ≡ read_choices bytes.now }
{
    match bytes[7] {
        0 => ArrayVec::new(),
        1 => one(choice_of(bytes[8], bytes[9], bytes[10])),
        _ => two(
            choice_of(bytes[8], bytes[9], bytes[10]),
            choice_of(bytes[11], bytes[12], bytes[13]),
        ),
    }
}

// Whether a change may have so many choices.
fn may_choose(change: &Change, number: usize) -> bool
    ensures { IsTrue result ↔ MayChoose change.now number }
{
    match change {
        Change::Enter(conn) | Change::Delete(conn) => match conn.cct {
            Cct::OneWay => number == 1,
            Cct::TwoWay => number == 2,
        },
        Change::Edit(_) => number <= 1,
        _ => number == 0,
    }
}

// Whether version 1 had such changes with so many choices.
fn is_of_first_version(change: &Change, number: usize) -> bool
    ensures { IsTrue result ↔ IsOfFirstVersion change.now number }
{
    match change {
        Change::Enter(conn) | Change::Delete(conn) => conn.label.is_empty(),
        Change::Edit(conn) => conn.label.is_empty() && number == 1,
        Change::EnterModule(_) | Change::DeleteModule(_) => true,
        Change::TakeOut(_) | Change::PutBack(_) => false,
    }
}

// Whether the bytes spell the change with its choices.
#[inline(always)]
fn is_spelled(bytes: &[u8; 64], change: &Change, choices: &ArrayVec<Choice, 2>) -> bool
    ensures { IsTrue result ↔ (bytes.now ≡ spelling change.now choices.now.items) }
{
    let mut record = [0; 64];
    spell(change, choices, &mut record);
    *bytes == record
}

/// The change with its choices that a record of this version, 1 or 2, spells; one of version 1 is filled up with zeros. None
/// exactly where the bytes are no record of that version. Whether its ports, modules and middles are of a shape, and whether an
/// edit changes the CCT, is for its caller to test.
#[inline(always)]
pub fn entry_of(bytes: &[u8; 64], version: u8) -> Option<(Change, ArrayVec<Choice, 2>)>
    requires { (version ≡ 1) ⊎ (version ≡ 2) }
    ensures found { IfSome result
        (λ v. (bytes.now ≡ spelling v.0 v.1.items) × IsEntry version v.0 v.1.items) }
    ensures only { (change : Change) (choices : List Choice) → IsEntry version change choices
        → bytes.now ≡ spelling change choices
        → MatchOption result ⊥ (λ v. (v.0 ≡ change) × (v.1.items ≡ choices)) }
{
    let change = change_in(bytes)?;
    let choices = choices_in(bytes);
    if !may_choose(&change, choices.len()) {
        return None;
    }
    if version == 1 && !is_of_first_version(&change, choices.len()) {
        return None;
    }
    // A record is read by spelling it again, so no two of them are read as one value.
    if !is_spelled(bytes, &change, &choices) {
        return None;
    }
    Some((change, choices))
}
