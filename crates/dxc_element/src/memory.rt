//! An element on new journals in memory.
ghost use Rattle.std.specs.Prelude.{◌≡◌, ◌≤◌, IfOk, MatchResult};
ghost use Rattle.dxc_disk.specs.MemView.{mem_state};
ghost use Rattle.dxc_element.specs.Loads.{IsInMemory, IsNewDisk, IsNewUsersDisk, IsNewController, IsNewElement, NotLoaded};

use crate::opening::{
    Controller, Element, not_started, start_on, start_users_on, users_not_started,
};
use dxc_args::Status;
use dxc_causes::NoMemory;
use dxc_disk::{Disk, MemDisk};
use dxc_outside::Gate;
use shelf_file::Shelf;
use std::alloc::Global;

/// How many calls and bytes the journal's disk has room for.
pub(crate) const DISK_ROOM: usize = 1 << 21;

// A new disk, none of whose calls is to fail.
fn new_disk(alloc: Global) -> Result<MemDisk, NoMemory>
    ensures { IfOk result (λ d. IsNewDisk (mem_state d)) }
{
    MemDisk::with_room(alloc, Vec::new(alloc), Vec::new(alloc), DISK_ROOM)
}

/// The same of the users' disk, which few commands call.
const USERS_ROOM: usize = 1 << 18;

// Such a disk for the users.
fn new_users_disk(alloc: Global) -> Result<MemDisk, NoMemory>
    ensures { IfOk result (λ d. IsNewUsersDisk (mem_state d)) }
{
    MemDisk::with_room(alloc, Vec::new(alloc), Vec::new(alloc), USERS_ROOM)
}

// The controller of the shelf on a new disk, with one worker.
fn new_controller<D: Disk + Drop, G: Gate>(
    alloc: Global,
    shelf: Shelf,
    disk: D,
    gate: &mut G,
) -> Result<Controller<D>, Status>
    requires told { D.told }
    requires fresh { IsNewDisk (D.state disk) }
    ensures started { MatchResult result (IsNewController D.told D.state shelf)
        (NotLoaded (G.stops gate.old) (G.stops gate.new)) }
    ensures unstopped { MatchResult result (λ x. G.stops gate.new ≡ G.stops gate.old)
        (λ s. G.stops gate.old ≤ G.stops gate.new) }
{
    match start_on(alloc, shelf, disk, 1, gate) {
        Ok(controller) => Ok(controller),
        Err(fault) => Err(not_started(&fault)),
    }
}

/// The element of the shelf on that new disk: a controller with one worker, and its users, on a new disk in memory.
pub(crate) fn new_element<D: Disk + Drop, G: Gate>(
    alloc: Global,
    shelf: Shelf,
    disk: D,
    gate: &mut G,
) -> Result<Element<D, MemDisk>, Status>
    requires told { D.told }
    requires fresh { IsNewDisk (D.state disk) }
    ensures started { MatchResult result
        (IsNewElement D.told (Unit {0}) D.state mem_state shelf)
        (NotLoaded (G.stops gate.old) (G.stops gate.new)) }
    ensures unstopped { MatchResult result (λ x. G.stops gate.new ≡ G.stops gate.old)
        (λ s. G.stops gate.old ≤ G.stops gate.new) }
{
    let controller = new_controller(alloc, shelf, disk, gate)?;
    let Ok(users_disk) = new_users_disk(alloc) else {
        return Err(Status::NoMemory);
    };
    match start_users_on(alloc, &controller.shelf, users_disk) {
        Ok(users) => Ok(Element { controller, users }),
        Err(fault) => Err(users_not_started(&fault)),
    }
}

/// The element of the shelf: a controller with one worker, and its users, on new disks in memory.
pub fn memory_element<G: Gate>(
    alloc: Global,
    shelf: Shelf,
    gate: &mut G,
) -> Result<Element<MemDisk, MemDisk>, Status>
    ensures started { MatchResult result (IsInMemory shelf)
        (NotLoaded (G.stops gate.old) (G.stops gate.new)) }
    ensures unstopped { MatchResult result (λ x. G.stops gate.new ≡ G.stops gate.old)
        (λ s. G.stops gate.old ≤ G.stops gate.new) }
{
    let Ok(disk) = new_disk(alloc) else {
        return Err(Status::NoMemory);
    };
    new_element(alloc, shelf, disk, gate)
}
