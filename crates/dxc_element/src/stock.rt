//! What the sessions of a place left.
ghost use Rattle.std.specs.Prelude.{◌≡◌, ◌≤◌, List, IfNone, IfSome, vec_capacity};
ghost use Rattle.dxc_num.specs.Dimensions.{ports};
ghost use Rattle.dxc_model.specs.declared.entry.Entry.{Entry};
ghost use Rattle.xc_core.specs.Seeing.{Saw};
ghost use Rattle.xc_core.specs.States.{opening_of};
ghost use Rattle.xc_core.specs.Turns.{HasPass};
ghost use Rattle.dxc_element.specs.Stocks.{IsAway, IsHeldUp, IsLeft, IsStock, among};

use dxc_disk::Disk;
use dxc_model::{Conn, Selection};
use std::sync::Wait;
use turnstile::{Pass, Turnstile};
use xc_core::{Driver, Errand, Home, State, release};

/// How many connections there are, and how many switches were made since the fabric was.
#[derive(Clone, Copy)]
pub struct Stock {
    pub connections: u64,
    pub switches: u64,
}

// None where a place has the Provisioner, or a restart is due.
fn stock_in<D: Disk + Drop>(state: &State<D>, rows: &mut Vec<Conn>) -> Option<Stock>
    requires room { ports state.now.table.shape ≤ vec_capacity rows.old }
    ensures stock { IfSome result (IsStock state.now) }
    ensures none { IfNone result (IsAway state.now) }
{
    let Home::In(provisioner) = &state.home else {
        return None;
    };
    if provisioner.p.halted() {
        return None;
    }
    state.table.rows(Selection::All, rows);
    Some(Stock {
        connections: rows.len() as u64,
        switches: provisioner.switches(),
    })
}

// The journal's disk of a Provisioner.
fn disk_in<D: Disk>(driver: Driver<D>) -> D
    ensures { result ≡ driver.p.journal.0 }
{
    let Driver { p, rolling: _ } = driver;
    let (disk, _) = release(p);
    disk
}

/// Looks at the state by one turn of the pass, which leaves no entry, and takes the journal's disk out of it. The turn isn't given back, so
/// nobody has one after it. None: a place has the Provisioner, or a restart is due. `rows` has room for all connections.
pub fn stock_of<D: Disk + Drop, R: Wait>(
    pass: &mut Pass,
    turns: &Turnstile<State<D>>,
    rows: &mut Vec<Conn>,
    rt: &R,
) -> Option<(Stock, D)>
    requires pass { HasPass turns.now pass.old }
    requires room { ports (opening_of D.state turns.now.first).first.fold.table.shape ≤ vec_capacity
        rows.old }
    ensures left { (h : List Entry) → Saw (opening_of D.state turns.now.first) pass.old.seen h
        → IfSome result
        (IsLeft D.state pass.old.number turns.now.passes (opening_of D.state turns.now.first) h) }
    ensures none { (h : List Entry) → Saw (opening_of D.state turns.now.first) pass.old.seen h
        → IfNone result (IsHeldUp D.told D.state (among pass.old.number turns.now.passes)
        (opening_of D.state turns.now.first) h) }
{
    let mut turn = turns.enter(pass, rt);
    let Some(stock) = stock_in(turn.state(), rows) else {
        return None;
    };
    let Some(driver) = turn.state_mut().take_out(Errand::Restart) else {
        unreachable!()
    };
    let disk = disk_in(Box::into_inner(driver));
    Some((stock, disk))
}
