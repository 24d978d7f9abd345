//! The opening of an element on a disk, with a place for each session of a row.
ghost use Rattle.std.specs.Prelude.{◌≡◌, ◌<◌, ◌+◌, [], IfOk, IfSome, length};
ghost use Rattle.std.specs.Arc.{arc_value};
ghost use Rattle.fabric_core.specs.State.{new_mover};
ghost use Rattle.user_admin.specs.Shared.{SharedStands as UsersStand};
ghost use Rattle.xc_core.specs.Openings.{Begins};
ghost use Rattle.xc_core.specs.States.{opening_of};
ghost use Rattle.craft_session.specs.Places.{AreFresh, IsAtOpening};

use crate::audit::{Audit, Released};
use crate::places::{Turns, next_pass, place_of, turns_of};
use crate::users::{Users, users_of};
use anyhow::{Result, bail, ensure};
use craft_session::Place;
use dxc_causes::NoMemory;
use dxc_disk::Disk;
use dxc_outside::AlwaysGo;
use fabric_words::{Fabric, MoverSeat};
use shelf_file::Shelf;
use std::alloc::Global;
use std::sync::Wait;
use turnstile::Pass;
use worked_frames::Ground;
use xc_core::{Adopted, Core, State};

/// The most sessions of an element.
const MOST: usize = 99;

/// An element on which a row's sessions are served.
#[derive(Drop)]
pub struct Element<D: Disk, U: Disk> {
    /// A place for each session that is still to come.
    pub places: Vec<Place<D, U>>,
    pub audit: Audit<D>,
    /// For how many sessions it was opened.
    pub sessions: usize,
}

impl<D: Disk + Drop, U: Disk + Drop> Element<D, U> {
    /// The element that the ground's shelf and the disk's journal describe, for so many sessions. It keeps its users on the next of these disks.
    pub fn open(
        alloc: Global,
        ground: Ground,
        mover: MoverSeat,
        disk: D,
        users: &mut Vec<U>,
        sessions: usize,
    ) -> Result<Element<D, U>>
        requires mover { mover ≡ record
            { fabric = arc_value ground.fabric; mover = new_mover (arc_value ground.fabric).size } }
        requires shape { (arc_value ground.fabric).size.shape ≡ (arc_value ground.shelf).shape }
        ensures { IfOk result (λ e. e.audit.opening.site.fabric ≡ arc_value ground.fabric) }
    {
        let state = controller(alloc, &ground.shelf, &ground.fabric, mover, disk)?;
        seat_all(alloc, ground, state, users, sessions)
    }

    /// Ends the controller, and another one goes on with its disk and its registers, with as many places. None: it finds the registers strange to
    /// the journal.
    pub fn handed_on<R: Wait>(
        self,
        alloc: Global,
        users: &mut Vec<U>,
        rt: &R,
    ) -> Result<Option<Element<D, U>>> {
        let Element {
            places,
            audit,
            sessions,
        } = self;
        drop(places);
        let Released { disk, seat, ground } = audit.release(rt)?;
        let Some(state) = adopt(alloc, &ground.shelf, &ground.fabric, disk, seat)? else {
            return Ok(None);
        };
        Ok(Some(seat_all(alloc, ground, state, users, sessions)?))
    }
}

// The controller on what the disk's journal came to, which writes the registers.
fn controller<D: Disk + Drop>(
    alloc: Global,
    shelf: &Shelf,
    fabric: &Fabric,
    mover: MoverSeat,
    disk: D,
) -> Result<State<D>>
    requires new { mover ≡ record { fabric = fabric.now; mover = new_mover fabric.now.size } }
    requires shape { fabric.now.size.shape ≡ shelf.now.shape }
    ensures begins { IfOk result (λ s. Begins D.told D.state s) }
    ensures opening { IfOk result (λ s. IsAtOpening (opening_of D.state s) shelf.now fabric.now) }
{
    let Ok(state) = Core::open(alloc, shelf, disk, mover, fabric, &mut AlwaysGo) else {
        bail!("not opened");
    };
    Ok(state)
}

// The controller that goes on with disk and registers; None where these are strange to the journal.
fn adopt<D: Disk + Drop>(
    alloc: Global,
    shelf: &Shelf,
    fabric: &Fabric,
    disk: D,
    seat: MoverSeat,
) -> Result<Option<State<D>>>
    requires own { seat.fabric ≡ fabric.now }
    ensures begins { IfOk result (λ x. IfSome x (Begins D.told D.state)) }
    ensures opening { IfOk result
        (λ x. IfSome x (λ s. IsAtOpening (opening_of D.state s) shelf.now fabric.now)) }
{
    ensure!(
        fabric.shape() == shelf.shape(),
        "the registers have another shape"
    );
    match Core::adopt(alloc, shelf, disk, seat, fabric) {
        Adopted::State(state) => Ok(Some(state)),
        Adopted::Strange(_, _) => Ok(None),
        Adopted::Open(_) => bail!("not opened"),
    }
}

// So many places, and one who looks at the registers.
fn seat_all<D: Disk + Drop, U: Disk + Drop>(
    alloc: Global,
    ground: Ground,
    state: State<D>,
    users: &mut Vec<U>,
    sessions: usize,
) -> Result<Element<D, U>>
    requires begins { Begins D.told D.state state }
    requires opening { IsAtOpening (opening_of D.state state) (arc_value ground.shelf)
        (arc_value ground.fabric) }
    ensures { IfOk result (λ e. e.audit.opening.site.fabric ≡ arc_value ground.fabric) }
{
    let count = sessions.min(MOST) as u16;
    let Ok((turns, passes)) = turns_of(alloc, state, count + 1) else {
        bail!("no memory");
    };
    let users = users_of(alloc, &ground.shelf, users, count + 1)?;
    let mut waiting = Waiting { passes, users };
    let Ok(places) = places_of(alloc, count, &mut waiting, &ground, &turns) else {
        bail!("no memory");
    };
    let pass = next_pass(&mut waiting.passes);
    let audit = Audit::new(pass, turns, ground);
    Ok(Element {
        places,
        audit,
        sessions,
    })
}

// The passes of places that aren't made yet.
#[derive(Drop)]
struct Waiting<U: Disk> {
    passes: Vec<Pass>,
    users: Users<U>,
}

// So many places, by the passes from number 0 on.
fn places_of<D: Disk + Drop, U: Disk + Drop>(
    alloc: Global,
    count: u16,
    waiting: &mut Waiting<U>,
    ground: &Ground,
    turns: &Turns<D>,
) -> Result<Vec<Place<D, U>>, NoMemory>
    requires left { length waiting.old.passes.items ≡ count + 1 }
    requires fresh { AreFresh (arc_value turns.now).id 0 waiting.old.passes.items }
    requires within { (arc_value turns.now).passes ≡ count + 1 }
    requires begins { Begins D.told D.state (arc_value turns.now).first }
    requires opening { IsAtOpening (opening_of D.state (arc_value turns.now).first)
        (arc_value ground.now.shelf) (arc_value ground.now.fabric) }
    requires users_left { length waiting.old.users.passes.items ≡ count + 1 }
    requires users_fresh { AreFresh (arc_value waiting.old.users.turns).id 0
        waiting.old.users.passes.items }
    requires users_within { (arc_value waiting.old.users.turns).passes ≡ count + 1 }
    requires users_stand { UsersStand U.told U.state (arc_value waiting.old.users.turns).first
        [] }
    ensures left { IfOk result (λ _. length waiting.new.passes.items ≡ 1) }
    ensures fresh { IfOk result
        (λ _. AreFresh (arc_value turns.now).id count waiting.new.passes.items) }
{
    let mut places = Vec::new(alloc);
    for number in 0..count {
        places.push(next_place(alloc, number, waiting, ground, turns)?)?;
    }
    Ok(places)
}

// A place for the passes of that number.
fn next_place<D: Disk + Drop, U: Disk + Drop>(
    alloc: Global,
    number: u16,
    waiting: &mut Waiting<U>,
    ground: &Ground,
    turns: &Turns<D>,
) -> Result<Place<D, U>, NoMemory>
    requires some { 0 < length waiting.old.passes.items }
    requires users_some { 0 < length waiting.old.users.passes.items }
    requires users_within { number < (arc_value waiting.old.users.turns).passes }
    requires users_fresh { AreFresh (arc_value waiting.old.users.turns).id number
        waiting.old.users.passes.items }
    requires users_stand { UsersStand U.told U.state (arc_value waiting.old.users.turns).first
        [] }
    requires within { number < (arc_value turns.now).passes }
    requires fresh { AreFresh (arc_value turns.now).id number waiting.old.passes.items }
    requires begins { Begins D.told D.state (arc_value turns.now).first }
    requires opening { IsAtOpening (opening_of D.state (arc_value turns.now).first)
        (arc_value ground.now.shelf) (arc_value ground.now.fabric) }
    ensures users { waiting.new.users.turns ≡ waiting.old.users.turns }
    ensures users_fresh { AreFresh (arc_value waiting.old.users.turns).id (number + 1)
        waiting.new.users.passes.items }
    ensures users_fewer { length waiting.new.users.passes.items + 1 ≡ length
        waiting.old.users.passes.items }
    ensures fresh { AreFresh (arc_value turns.now).id (number + 1) waiting.new.passes.items }
    ensures fewer { length waiting.new.passes.items + 1 ≡ length waiting.old.passes.items }
{
    let pass = next_pass(&mut waiting.passes);
    let users_pass = next_pass(&mut waiting.users.passes);
    place_of(
        alloc,
        number,
        pass,
        users_pass,
        &ground.shelf,
        &ground.fabric,
        turns,
        &waiting.users.turns,
    )
}
