//! The row in which a worker follows an OUT word that was switched since it loaded it.
ghost use Rattle.std.specs.Prelude.{◌≡◌, ◌<◌};
ghost use Rattle.dxc_num.specs.Dimensions.{Dimensions, ports};
ghost use Rattle.dxc_model.specs.Operations.{IsApt};
ghost use Rattle.fabric_core.specs.Working.{CanBegin};
ghost use Rattle.xc_core.specs.States.{opening_of};
ghost use Rattle.craft_session.specs.Seats.{IsSeated};
ghost use Rattle.craft_session.specs.Places.{IsAtOpening};

use crate::audit::{Audit, words_in_turn};
use crate::beside::{Beside, change_beside};
use crate::element::Element;
use crate::run::serve_next;
use anyhow::{Result, bail, ensure};
use dxc_disk::Disk;
use dxc_model::{Cct, Conn, Label, Op};
use dxc_num::Port;
use dxc_outside::AlwaysGo;
use fabric_words::{Fabric, WorkerSeat};
use roll_engine::Halt;
use shelf_file::Shelf;
use std::alloc::Global;
use std::sync::Wait;
use turnstile::{Pass, Turnstile};
use worked_common::Part;
use worked_frames::{Laid, lay, same_as_said, second_seat};
use xc_core::State;

/// DS0-2-2.
const OUTPUT: Port = Port(3);

/// Worker 1 holds the word of switch 1 over middle 0. Three writes are made; the fourth clears the MID word that it may still follow. It does so,
/// to slot 0 of module 1, and ends its frame; then the other fifteen are made.
const WANTED: Beside = Beside {
    held: Some(257),
    first: Err(Halt::InFrame(1)),
    asked: 4,
    followed: Some((2, 1)),
    then: Ok(()),
    asked_in_all: 19,
};

/// The row's first session, the entry by another pass, and the row's second session; these stand the last one first. An error tells what isn't as it
/// must be.
pub fn run_stale<D: Disk + Drop, U: Disk + Drop, R: Wait>(
    alloc: Global,
    rt: &R,
    row: Part<'_, '_>,
    disk: D,
    users: &mut Vec<U>,
    sessions: &[Part<'_, '_>],
) -> Result<()> {
    let Laid {
        ground,
        mover,
        seats,
    } = lay(alloc, row)?;
    let mut late = second_seat(alloc, &ground.fabric, seats)?;
    let element = Element::open(alloc, ground, mover, disk, users, sessions.len())?;
    serve_beside(alloc, rt, element, &mut late, sessions)
}

fn serve_beside<D: Disk + Drop, U: Disk + Drop, R: Wait>(
    alloc: Global,
    rt: &R,
    element: Element<D, U>,
    late: &mut WorkerSeat,
    sessions: &[Part<'_, '_>],
) -> Result<()>
    requires own { late.old.reader.fabric ≡ element.audit.opening.site.fabric }
    requires rests { CanBegin late.old.reader.worker }
{
    let Element {
        mut places,
        audit,
        sessions: _,
    } = element;
    let [behind, before] = sessions else {
        bail!("two sessions are wanted");
    };
    let _ = serve_next(alloc, rt, &mut places, *before, &mut AlwaysGo)?;
    enter_beside(alloc, rt, audit, late, *behind)?;
    let _ = serve_next(alloc, rt, &mut places, *behind, &mut AlwaysGo)?;
    Ok(())
}

// The entry by the pass of the one who looks at the registers.
fn enter_beside<D: Disk + Drop, R: Wait>(
    alloc: Global,
    rt: &R,
    audit: Audit<D>,
    late: &mut WorkerSeat,
    behind: Part<'_, '_>,
) -> Result<()>
    requires own { late.old.reader.fabric ≡ audit.opening.site.fabric }
    requires rests { CanBegin late.old.reader.worker }
{
    let Audit {
        mut pass,
        turns,
        ground,
    } = audit;
    let (shelf, fabric) = (&ground.shelf, &ground.fabric);
    compare_beside(alloc, rt, &mut pass, &turns, shelf, fabric, late, behind)
}

// From DS0-1-2 to DS0-1-1.
fn entry() -> Op
    ensures { (d : Dimensions) → 1 < ports d → IsApt d result }
{
    Op::Enter(Conn {
        from: Port(1),
        to: Port(0),
        cct: Cct::OneWay,
        label: Label::default(),
    })
}

// The entry, and the register words after it.
fn compare_beside<D: Disk + Drop, R: Wait>(
    alloc: Global,
    rt: &R,
    pass: &mut Pass,
    turns: &Turnstile<State<D>>,
    shelf: &Shelf,
    fabric: &Fabric,
    late: &mut WorkerSeat,
    behind: Part<'_, '_>,
) -> Result<()>
    requires seated { IsSeated D.told D.state pass.old turns.now fabric.now }
    requires opening { IsAtOpening (opening_of D.state turns.now.first) shelf.now fabric.now }
    requires own { late.old.reader.fabric ≡ fabric.now }
    requires rests { CanBegin late.old.reader.worker }
{
    ensure!(shelf.shape().ports() > 1, "two ports are wanted");
    let beside = change_beside(alloc, pass, turns, fabric, &entry(), late, OUTPUT, rt)?;
    ensure!(beside == WANTED, "the entry came otherwise");
    let words = words_in_turn(alloc, pass, turns, fabric, rt)?;
    same_as_said(alloc, behind, "words", &words)
}
