//! The users beside an element, with the passes that are left.
ghost use Rattle.std.specs.Prelude.{◌≡◌, ◌<◌, ◌+◌, [], IfOk, length};
ghost use Rattle.std.specs.Arc.{arc_value};
ghost use Rattle.user_admin.specs.Shared.{SharedStands as UsersStand};
ghost use Rattle.craft_session.specs.Places.{AreFresh};

use crate::places::turns_of;
use anyhow::{Result, bail};
use dxc_disk::Disk;
use shelf_file::Shelf;
use std::alloc::Global;
use std::sync::Arc;
use turnstile::{Pass, Turnstile};
use user_admin::{SharedUsers, UserState};

/// The users of an element, and the passes of places that aren't made yet.
#[derive(Drop)]
pub struct Users<U: Disk> {
    pub turns: Arc<Turnstile<SharedUsers<U>>>,
    pub passes: Vec<Pass>,
}

/// The users that the shelf describes after the changes of a journal on the next of these disks, with so many passes.
pub fn users_of<U: Disk + Drop>(
    alloc: Global,
    shelf: &Shelf,
    disks: &mut Vec<U>,
    count: u16,
) -> Result<Users<U>>
    requires some { 0 < count }
    ensures stand { IfOk result (λ u. UsersStand U.told U.state (arc_value u.turns).first []) }
    ensures within { IfOk result (λ u. (arc_value u.turns).passes ≡ count) }
    ensures each { IfOk result (λ u. length u.passes.items ≡ count) }
    ensures fresh { IfOk result (λ u. AreFresh (arc_value u.turns).id 0 u.passes.items) }
{
    let Some(disk) = disks.pop() else {
        bail!("no disk is left");
    };
    let Ok(state) = UserState::open(alloc, shelf, disk) else {
        bail!("no users");
    };
    let Ok(shared) = SharedUsers::of(alloc, state) else {
        bail!("no memory");
    };
    let Ok((turns, passes)) = turns_of(alloc, shared, count) else {
        bail!("no memory");
    };
    Ok(Users { turns, passes })
}
