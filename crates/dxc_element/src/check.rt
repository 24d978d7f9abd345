//! What a journal came to, for whoever audits it.
ghost use Rattle.std.specs.Prelude.{◌≡◌, ◌≢◌, ◌≤◌, flat_map, vec_capacity};
ghost use Rattle.std.specs.List.{AllByRecursion};
ghost use Rattle.dxc_num.specs.Dimensions.{ports};
ghost use Rattle.dxc_outside.specs.Asked.{AskedFor};
ghost use Rattle.dxc_outside.specs.Links.{IsSent};
ghost use Rattle.dxc_jobs.specs.Missing.{IsOfNoOpening};
ghost use Rattle.tl1_answer.specs.Texts.{IsOfShape};
ghost use Rattle.dxc_model.specs.declared.op.Selection.TheVariants.{All};
ghost use Rattle.dxc_model.specs.Tables.{rows};
ghost use Rattle.xc_core.specs.declared.state.Errand.{Errand};
ghost use Rattle.xc_core.specs.declared.state.Home.TheVariants.{Out};
ghost use Rattle.dxc_element.specs.Auditing.{Checks, lent, told_by};
ghost use Rattle.dxc_element.specs.Listings.{row_line, count_line, listing, records_at};
ghost use Rattle.dxc_element.specs.Openings.{files_asked, named, sources};

use crate::opening::{Element, Names, open};
use arrayvec::ArrayVec;
use dxc_args::Status;
use dxc_disk::Disk;
use dxc_leaving::LetGo;
use dxc_model::{Conn, Selection};
use dxc_num::Shape;
use dxc_outside::{Gate, Link, Opener, Sent, write_all};
use std::alloc::Global;
use tl1_answer::conn_text;
use xc_core::{Home, State};

/// No frames are carried, so the one worker has a seat, and none runs.
pub const WORKERS: u16 = 1;

/// Writes to the terminal what the journal of a controller came to that is opened on these names. The controller and its users are let
/// go as they were opened.
pub fn run_check<O: Opener + LetGo, K: Link, G: Gate>(
    alloc: Global,
    opener: &mut O,
    names: Names<'_>,
    terminal: &mut K,
    gate: &mut G,
) -> Status
    ensures opens { Checks (told_by O.told O.Journal.told O.Journal.state K.told O.gone)
        (named names.entry.shelf.now names.entry.journal.now)
        (lent (sources (O.state opener.old) (O.journal_at opener.old) (G.stops gate.old))
        (K.state terminal.old))
        (lent (sources (O.state opener.new) (O.journal_at opener.new) (G.stops gate.new))
        (K.state terminal.new)) result }
    ensures asked { AskedFor (O.asked opener.old opener.new)
        (files_asked (named names.entry.shelf.now names.entry.journal.now)) (IsOfNoOpening result) }
    ensures hung_up { K.hung_up terminal.new ≡ K.hung_up terminal.old }
{
    let Element { controller, users } = match open(alloc, opener, names, WORKERS, gate) {
        Ok(element) => element,
        Err(status) => return status,
    };
    let ports = controller.shelf.shape().ports();
    let Ok(mut listed) = Vec::with_capacity(alloc, ports as usize) else {
        opener.let_go(Element { controller, users });
        return Status::NoMemory;
    };
    let status = Status::of_sent(check(&controller.state, &mut listed, terminal));
    opener.let_go(Element { controller, users });
    status
}

// Writes each row of the table, and how many records its journal has. `listed` has room for the rows of its shape.
fn check<K: Link, D: Disk + Drop>(state: &State<D>, listed: &mut Vec<Conn>, link: &mut K) -> Sent
    requires home { (e : Errand) → state.now.home ≢ Out e }
    requires room { ports state.now.table.shape ≤ vec_capacity listed.old }
    ensures sent { IsSent K.told (K.state link.old) (K.state link.new) result
        (listing state.now.table.shape (rows state.now.table All) (records_at state.now.home)) }
    ensures hung_up { K.hung_up link.new ≡ K.hung_up link.old }
{
    let mut text = ArrayVec::new();
    let shape = state.table.shape();
    state.table.rows(Selection::All, listed);
    match write_rows(link, &mut text, shape, listed) {
        Sent::Whole => {}
        Sent::Cut => return Sent::Cut,
    }
    let records = match &state.home {
        Home::In(p) => p.records(),
        Home::Out(_) => unreachable!(),
    };
    write_count(link, &mut text, records)
}

// Clears `text`, and writes the row on a line of its own.
fn write_line(shape: Shape, row: &Conn, text: &mut ArrayVec<u8, 128>)
    requires { IsOfShape shape row.now }
    ensures { text.new.items ≡ row_line shape row.now }
{
    conn_text(shape, row, text);
    let _ = text.try_push(b'\n');
}

// Writes the rows as `FROM,TO:CCT` without quotes, each on a line of its own.
fn write_rows<K: Link>(
    link: &mut K,
    text: &mut ArrayVec<u8, 128>,
    shape: Shape,
    listed: &[Conn],
) -> Sent
    requires { AllByRecursion (IsOfShape shape) listed.now }
    ensures sent { IsSent K.told (K.state link.old) (K.state link.new) result
        (flat_map (row_line shape) listed.now) }
    ensures hung_up { K.hung_up link.new ≡ K.hung_up link.old }
{
    for at in 0..listed.len() {
        write_line(shape, &listed[at], text);
        match write_all(link, text.as_slice()) {
            Sent::Whole => {}
            Sent::Cut => return Sent::Cut,
        }
    }
    Sent::Whole
}

// Writes how many records there are.
fn write_count<K: Link>(link: &mut K, text: &mut ArrayVec<u8, 128>, records: u32) -> Sent
    ensures sent { IsSent K.told (K.state link.old) (K.state link.new) result (count_line records) }
    ensures hung_up { K.hung_up link.new ≡ K.hung_up link.old }
{
    let mut digits = itoa::Buffer::new();
    text.clear();
    let _ = text.try_extend_from_slice(b"RECORDS ");
    let _ = text.try_extend_from_slice(digits.format(records).as_bytes());
    let _ = text.try_push(b'\n');
    write_all(link, text.as_slice())
}
