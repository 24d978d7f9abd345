ghost use Rattle.std.specs.Prelude.{◌≡◌, ◌≤◌, ◌∷◌, ◌++◌, [], drop, length, true};
ghost use Rattle.dxc_model.specs.Labels.{is_label};
ghost use Rattle.xc_journal.specs.Spelling.{spelling, front, change_bytes, choice_bytes, cct_byte, conn_bytes, module_bytes, middle_bytes, label_of};

use arrayvec::ArrayVec;
use byteorder::{BigEndian, ByteOrder};
use dxc_model::{Cct, Change, Conn};
use dxc_num::Middle;
use roll_plan::{Chain, Choice};

/// The seal byte of a record.
const SEALED: u8 = 0xA5;

fn byte_of(cct: Cct) -> u8
    ensures { result ≡ cct_byte cct }
{
    match cct {
        Cct::OneWay => 0,
        Cct::TwoWay => 1,
    }
}

fn of_conn(kind: u8, conn: &Conn) -> [u8; 6]
    ensures { result ≡ kind ∷ conn_bytes conn.now }
{
    let mut bytes = [kind, 0, 0, 0, 0, byte_of(conn.cct)];
    BigEndian::write_u16(&mut bytes[1..], conn.from.0);
    BigEndian::write_u16(&mut bytes[3..], conn.to.0);
    bytes
}

fn of_module(kind: u8, module: u16) -> [u8; 6]
    ensures { result ≡ kind ∷ module_bytes «module» }
{
    let mut bytes = [kind, 0, 0, 0, 0, 0];
    BigEndian::write_u16(&mut bytes[1..], module);
    bytes
}

fn of_middle(kind: u8, middle: Middle) -> [u8; 6]
    ensures { result ≡ kind ∷ middle_bytes middle }
{
    [kind, 0, middle.0, 0, 0, 0]
}

fn of_change(change: &Change) -> [u8; 6]
    ensures { result ≡ change_bytes change.now }
{
    match change {
        Change::Enter(conn) => of_conn(1, conn),
        Change::Delete(conn) => of_conn(2, conn),
        Change::Edit(conn) => of_conn(3, conn),
        Change::EnterModule(module) => of_module(4, *module),
        Change::DeleteModule(module) => of_module(5, *module),
        Change::TakeOut(middle) => of_middle(6, *middle),
        Change::PutBack(middle) => of_middle(7, *middle),
    }
}

// Of the first of these choices, or zeros.
fn of_choice(choices: &[Choice]) -> [u8; 3]
    ensures { result ≡ choice_bytes choices.now }
{
    match choices {
        [] => [0, 0, 0],
        [first, ..] => match first.chain {
            Chain::Direct => [first.middle.0, 0, 0],
            Chain::Row(other) => [first.middle.0, 1, other.0],
            Chain::Column(other) => [first.middle.0, 2, other.0],
        },
    }
}

// The choices after the first.
fn behind(choices: &[Choice]) -> &[Choice]
    ensures { result.now ≡ drop 1 choices.now }
{
    match choices {
        [] => choices,
        [_, rest @ ..] => rest,
    }
}

// What is in front of the label's bytes: the last of these bytes is their number.
#[inline(always)]
fn front_of(change: &Change, choices: &[Choice], count: u8) -> [u8; 15]
    requires { length choices.now ≤ 2 }
    ensures { result ≡ front change.now choices.now ++ count ∷ [] }
{
    let c = of_change(change);
    let a = of_choice(choices);
    let b = of_choice(behind(choices));
    let n = choices.len() as u8;
    [
        SEALED, c[0], c[1], c[2], c[3], c[4], c[5], n, a[0], a[1], a[2], b[0], b[1], b[2], count,
    ]
}

// Spells the record where it is to lie, since an array that is handed up is copied at each level.
#[inline(always)]
pub(crate) fn spell(change: &Change, choices: &ArrayVec<Choice, 2>, record: &mut [u8; 64])
    ensures spelled { «record».new ≡ spelling change.now choices.now.items }
    ensures label { is_label (label_of change.now) ≡ true }
{
    *record = [0; 64];
    match change {
        Change::Enter(conn) | Change::Delete(conn) | Change::Edit(conn) => {
            let count = conn.label.bytes().len() as u8;
            record[..15].copy_from_slice(&front_of(change, choices.as_slice(), count));
            record[15..39].copy_from_slice(conn.label.padded());
        }
        _ => record[..15].copy_from_slice(&front_of(change, choices.as_slice(), 0)),
    }
}

/// The sealed record of a change with its choices, in version 2. It is read back where there are as many choices as the change
/// joins or parts legs: one or two for a one-way or two-way connection that is entered or deleted, at most one for an edit, none
/// for a module or a middle.
#[inline(always)]
pub fn record_of(change: &Change, choices: &ArrayVec<Choice, 2>) -> [u8; 64]
    ensures spelled { result ≡ spelling change.now choices.now.items }
    ensures label { is_label (label_of change.now) ≡ true }
{
    let mut record = [0; 64];
    spell(change, choices, &mut record);
    record
}
