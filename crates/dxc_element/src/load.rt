//! The element of the load script, on journals in memory.
ghost use Rattle.std.specs.Prelude.{◌≡◌, ◌≤◌, MatchResult};
ghost use Rattle.dxc_element.specs.Loads.{IsLoadStarted, NotLoaded};

use crate::memory::{DISK_ROOM, new_element};
use crate::opening::Element;
use dxc_args::Status;
use dxc_disk::MemDisk;
use dxc_load::{LoadDisk, load_shelf};
use dxc_outside::Gate;
use std::alloc::Global;

/// The element of the load: a controller with one worker, and its users, on new disks. That of its journal notes that a call failed.
pub fn load_element<G: Gate>(
    alloc: Global,
    gate: &mut G,
) -> Result<Element<LoadDisk, MemDisk>, Status>
    ensures started { MatchResult result IsLoadStarted
        (NotLoaded (G.stops gate.old) (G.stops gate.new)) }
    ensures unstopped { MatchResult result (λ x. G.stops gate.new ≡ G.stops gate.old)
        (λ s. G.stops gate.old ≤ G.stops gate.new) }
{
    let Ok(shelf) = load_shelf(alloc) else {
        return Err(Status::NoMemory);
    };
    let Ok(disk) = LoadDisk::with_room(alloc, DISK_ROOM) else {
        return Err(Status::NoMemory);
    };
    new_element(alloc, shelf, disk, gate)
}
