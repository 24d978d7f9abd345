//! The turns in which a place looks at the state: at connections, at the latest changes, and at what is equipped.
ghost use Rattle.std.specs.Prelude.{◌≡◌, ◌≤◌, length, vec_capacity};
ghost use Rattle.dxc_num.specs.Dimensions.{ports};
ghost use Rattle.dxc_model.specs.Histories.{kept};
ghost use Rattle.xc_core.specs.Turns.{HasPass, IsInventoryOf, KeepsPass, SawNoneAstray};
ghost use Rattle.xc_core.specs.Views.{After, AreApt, AreRowsOf, AtRest, Looks, Marks, ShowsInventory, ShowsRows, Upon, shape_in};

use super::{Inventory, Looked};
use crate::state::State;
use dxc_disk::Disk;
use dxc_model::{Change, Conn, Entry, Op, Outcome, Selection};
use std::sync::Wait;
use turnstile::{Pass, Turnstile};

/// Gives the connections of a selection.
pub fn rows<D: Disk + Drop, R: Wait>(
    pass: &mut Pass,
    turns: &Turnstile<State<D>>,
    selection: Selection,
    into: &mut Vec<Conn>,
    rt: &R,
)
    requires pass { HasPass turns.now pass.old }
    requires seen { Upon D.Disk turns.now pass.old AtRest }
    requires room { ports (shape_in D.Disk turns.now) ≤ vec_capacity into.old }
    ensures pass { KeepsPass turns.now pass.old pass.new }
    ensures rows { After D.Disk turns.now pass.old (ShowsRows selection pass.new into.new.items) }
    ensures astray { SawNoneAstray D.told pass.new.seen }
    ensures table { AreRowsOf (shape_in D.Disk turns.now) selection into.new.items }
    ensures room { vec_capacity into.new ≡ vec_capacity into.old }
{
    let turn = turns.enter(pass, rt);
    let table = &turn.state().table;
    // Its clause tells that the table's ports are of the shape.
    let _shape = table.shape();
    table.rows(selection, into);
    let place = pass.number();
    let op = Op::Rows(selection);
    let outcome = Outcome::Answered;
    turns.leave(pass, turn, Entry { place, op, outcome });
}

/// Gives the changes after a number; none where that is past the newest.
pub fn look<D: Disk + Drop, R: Wait>(
    pass: &mut Pass,
    turns: &Turnstile<State<D>>,
    cursor: u64,
    into: &mut Vec<Change>,
    rt: &R,
) -> Looked
    requires pass { HasPass turns.now pass.old }
    requires seen { Upon D.Disk turns.now pass.old AtRest }
    requires room { kept ≤ vec_capacity into.old }
    ensures pass { KeepsPass turns.now pass.old pass.new }
    ensures look { After D.Disk turns.now pass.old (Looks cursor pass.new result into.new.items) }
    ensures astray { SawNoneAstray D.told pass.new.seen }
    ensures few { length into.new.items ≤ result.newest }
    ensures apt { AreApt (shape_in D.Disk turns.now) into.new.items }
    ensures room { vec_capacity into.old ≤ vec_capacity into.new }
{
    let turn = turns.enter(pass, rt);
    let reports = &turn.state().reports;
    let newest = reports.newest();
    let since = reports.since(cursor.min(newest), into);
    let place = pass.number();
    let op = Op::Look(cursor);
    let outcome = Outcome::Answered;
    turns.leave(pass, turn, Entry { place, op, outcome });
    Looked { since, newest }
}

/// Gives the number of the newest change.
pub fn mark<D: Disk + Drop, R: Wait>(pass: &mut Pass, turns: &Turnstile<State<D>>, rt: &R) -> u64
    requires pass { HasPass turns.now pass.old }
    requires seen { Upon D.Disk turns.now pass.old AtRest }
    ensures pass { KeepsPass turns.now pass.old pass.new }
    ensures mark { After D.Disk turns.now pass.old (Marks pass.new result) }
    ensures astray { SawNoneAstray D.told pass.new.seen }
{
    let turn = turns.enter(pass, rt);
    let newest = turn.state().reports.newest();
    let place = pass.number();
    let op = Op::Look(newest);
    let outcome = Outcome::Answered;
    turns.leave(pass, turn, Entry { place, op, outcome });
    newest
}

/// Gives which modules are equipped, and which middle is out of service.
pub fn read_inventory<D: Disk + Drop, R: Wait>(
    pass: &mut Pass,
    turns: &Turnstile<State<D>>,
    rt: &R,
) -> Inventory
    requires pass { HasPass turns.now pass.old }
    requires seen { Upon D.Disk turns.now pass.old AtRest }
    ensures pass { KeepsPass turns.now pass.old pass.new }
    ensures inventory { After D.Disk turns.now pass.old (ShowsInventory pass.new result) }
    ensures astray { SawNoneAstray D.told pass.new.seen }
    ensures of_shape { IsInventoryOf (shape_in D.Disk turns.now) result }
{
    let turn = turns.enter(pass, rt);
    let state = turn.state();
    let shape = state.table.shape();
    let inventory = Inventory {
        modules: shape.modules(),
        equipped: state.table.equipment(),
        out: state.table.out(),
    };
    let newest = state.reports.newest();
    let place = pass.number();
    let op = Op::Look(newest);
    let outcome = Outcome::Answered;
    turns.leave(pass, turn, Entry { place, op, outcome });
    inventory
}
