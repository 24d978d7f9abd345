//! The load script, run by one session on journals in memory.
ghost use Rattle.std.specs.Prelude.{◌≡◌, ◌≤◌, ◌^◌, List, [], IfOk, IfSome, MatchResult, length, vec_capacity};
ghost use Rattle.std.specs.Arc.{arc_value};
ghost use Rattle.dxc_num.specs.Dimensions.{ports};
ghost use Rattle.dxc_model.specs.declared.entry.Entry.{Entry};
ghost use Rattle.fabric_words.specs.New.{AreNew};
ghost use Rattle.dxc_load.specs.Script.{load_shape as shape_of_load};
ghost use Rattle.dxc_load.specs.Sending.{link_state, unread};
ghost use Rattle.xc_core.specs.Seeing.{Saw};
ghost use Rattle.dxc_element.specs.Loads.{IsLoadElement, NotLoaded};
ghost use Rattle.dxc_element.specs.Stocks.{IsLeft};
ghost use Rattle.craft_server.specs.Loads.{IsLoad, IsLoaded, IsLoadServed, IsSummed, LoadsOn, load_lent, load_told};

use arrayvec::ArrayVec;
use craft_session::places::lone_place;
use craft_session::{Place, SessionEnd, serve_session};
use dxc_args::Status;
use dxc_causes::NoMemory;
use dxc_disk::Disk;
use dxc_element::{Controller, Element, Stock, load_element, stock_of};
use dxc_load::{LoadClock, LoadLink, Noting, PORTS, Summary, codes_in};
use dxc_model::Conn;
use dxc_outside::{Gate, Link, write_all};
use fabric_words::{Fabric, WorkerSeat};
use std::alloc::Global;
use std::sync::{Arc, Wait};

// Room for all connections, and for what is written to the link.
fn rooms(alloc: Global) -> Result<(Vec<Conn>, Vec<u8>), NoMemory>
    ensures rows { IfOk result (λ r. ports shape_of_load ≤ vec_capacity r.0) }
    ensures written { IfOk result (λ r. (r.1.items ≡ []) × (2 ^ 21 ≤ vec_capacity r.1)) }
{
    let rows = Vec::with_capacity(alloc, PORTS)?;
    let written = Vec::with_capacity(alloc, LoadLink::ROOM)?;
    Ok((rows, written))
}

// The link of the script of that number, with the first of the seats. What is written to it is kept in that room.
fn load_link(
    number: u64,
    fabric: Arc<Fabric>,
    mut seats: Vec<WorkerSeat>,
    written: Vec<u8>,
) -> LoadLink
    requires shape { (arc_value fabric).size.shape ≡ shape_of_load }
    requires seats { AreNew (arc_value fabric) 0 seats.items }
    requires one { length seats.items ≡ 1 }
    requires room { (written.items ≡ []) × (2 ^ 21 ≤ vec_capacity written) }
    ensures { link_state result ≡ unread number (arc_value fabric) }
{
    LoadLink::new(number, fabric, seats.remove(0), written)
}

// Serves the script at the place.
fn serve_load<D: Disk + Drop, U: Disk + Drop, G: Gate, R: Wait>(
    place: &mut Place<D, U>,
    link: &mut LoadLink,
    gate: &mut G,
    rt: &R,
) -> Result<(), Status>
    requires unread { (link_state link.old).reads ≡ 0 }
    ensures served { MatchResult result
        (λ _. IsLoadServed D.told place.old place.new (link_state link.old) (link_state link.new))
        (NotLoaded (G.stops gate.old) (G.stops gate.new)) }
    ensures unstopped { MatchResult result (λ _. G.stops gate.new ≡ G.stops gate.old)
        (λ _. G.stops gate.old ≤ G.stops gate.new) }
{
    match serve_session(place, link, &mut LoadClock, gate, rt) {
        SessionEnd::End => Ok(()),
        // There was no room for what it wrote.
        SessionEnd::WriteFault => Err(Status::NoMemory),
        SessionEnd::Stopped => Err(Status::Stopped),
        SessionEnd::ReadFault => unreachable!(),
        SessionEnd::Spent => unreachable!(),
        SessionEnd::Unattended => unreachable!(),
        SessionEnd::Idle => unreachable!(),
        SessionEnd::Cancelled => unreachable!(),
    }
}

// What the sessions of the place left, and the journal's disk. None: a restart is due.
fn left_by<D: Disk + Drop, U: Disk + Drop, R: Wait>(
    place: Place<D, U>,
    rows: &mut Vec<Conn>,
    rt: &R,
) -> Option<(Stock, D)>
    requires { ports place.seat.opening.first.fold.table.shape ≤ vec_capacity rows.old }
    ensures { (h : List Entry) → Saw place.seat.opening place.seat.seen h → IfSome result
        (IsLeft D.state place.seat.place place.seat.places place.seat.opening h) }
{
    let (mut pass, turns) = place.into_pass();
    stock_of(&mut pass, &turns, rows, rt)
}

// Serves the script of the link at the place, and sums it up, unless a command was denied for want of room in the journal.
fn summed<D: Noting + Drop, U: Disk + Drop, G: Gate, R: Wait>(
    mut place: Place<D, U>,
    link: &mut LoadLink,
    rows: &mut Vec<Conn>,
    gate: &mut G,
    rt: &R,
) -> Result<Summary, Status>
    requires unread { (link_state link.old).reads ≡ 0 }
    requires room { ports place.seat.opening.first.fold.table.shape ≤ vec_capacity rows.old }
    ensures summed { MatchResult result (IsSummed D.told D.state place (link_state link.old))
        (NotLoaded (G.stops gate.old) (G.stops gate.new)) }
    ensures unstopped { MatchResult result (λ _. G.stops gate.new ≡ G.stops gate.old)
        (λ _. G.stops gate.old ≤ G.stops gate.new) }
{
    match serve_load(&mut place, link, gate, rt) {
        Ok(()) => {}
        Err(status) => return Err(status),
    }
    let Some((stock, disk)) = left_by(place, rows, rt) else {
        // A call of the journal's disk failed, which had no room.
        return Err(Status::NoMemory);
    };
    // It may have failed in a command, and the rest gone well.
    if disk.has_failed() {
        return Err(Status::NoMemory);
    }
    Ok(Summary {
        codes: codes_in(link.written()),
        connections: stock.connections,
        switches: stock.switches,
        carried: link.carried(),
    })
}

// Serves the script of that number on an element that was opened, and sums it up.
fn load_on<D: Noting + Drop, U: Disk + Drop, G: Gate, R: Wait>(
    alloc: Global,
    number: u64,
    opened: Result<Element<D, U>, Status>,
    rows: &mut Vec<Conn>,
    written: Vec<u8>,
    gate: &mut G,
    rt: &R,
) -> Result<Summary, Status>
    requires element { IfOk opened (IsLoadElement D.told U.told D.state U.state) }
    requires rows { ports shape_of_load ≤ vec_capacity rows.old }
    requires written { (written.items ≡ []) × (2 ^ 21 ≤ vec_capacity written) }
    ensures { LoadsOn (load_told D.Disk U.Disk number) opened (G.stops gate.old)
        (G.stops gate.new) result }
{
    let Element { controller, users } = match opened {
        Ok(element) => element,
        Err(status) => return Err(status),
    };
    let Controller {
        shelf,
        fabric,
        seats,
        state,
    } = controller;
    let Ok(place) = lone_place(alloc, &shelf, &fabric, state, users) else {
        return Err(Status::NoMemory);
    };
    let mut link = load_link(number, fabric, seats, written);
    summed(place, &mut link, rows, gate, rt)
}

// The same on journals in memory.
fn loaded<G: Gate, R: Wait>(
    alloc: Global,
    number: u64,
    gate: &mut G,
    rt: &R,
) -> Result<Summary, Status>
    ensures loaded { MatchResult result (IsLoaded number)
        (NotLoaded (G.stops gate.old) (G.stops gate.new)) }
    ensures unstopped { MatchResult result (λ _. G.stops gate.new ≡ G.stops gate.old)
        (λ _. G.stops gate.old ≤ G.stops gate.new) }
{
    let Ok((mut rows, written)) = rooms(alloc) else {
        return Err(Status::NoMemory);
    };
    let opened = load_element(alloc, gate);
    load_on(alloc, number, opened, &mut rows, written, gate, rt)
}

/// Runs the load script of that number, and writes its summary to the terminal.
pub(crate) fn run_load<K: Link, G: Gate, R: Wait>(
    alloc: Global,
    number: u64,
    terminal: &mut K,
    gate: &mut G,
    rt: &R,
) -> Status
    ensures load { IsLoad number K.told (load_lent (K.state terminal.old) (G.stops gate.old))
        (load_lent (K.state terminal.new) (G.stops gate.new)) result }
    ensures hung_up { K.hung_up terminal.new ≡ K.hung_up terminal.old }
{
    let summary = match loaded(alloc, number, gate, rt) {
        Ok(summary) => summary,
        Err(status) => return status,
    };
    let mut line = ArrayVec::new();
    summary.write_line(&mut line);
    Status::of_sent(write_all(terminal, line.as_slice()))
}
