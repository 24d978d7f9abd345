//! The disks of a row.

use anyhow::{Result, bail};
use dxc_disk::MemDisk;
use std::alloc::Global;
use std::sync::Arc;
use worked_common::{Levers, Part, RowDisk, Torn, bytes_in};

/// The disk of the row's journal, with these levers.
pub fn disk_of(alloc: Global, row: Part<'_, '_>, levers: &Arc<Levers>) -> Result<RowDisk> {
    let torn = Torn::of(row.last("torn").unwrap_or("lost"))?;
    let held = bytes_in(alloc, row.last("old").unwrap_or(""))?;
    let shown = bytes_in(alloc, row.last("shown").unwrap_or(""))?;
    let levers = Arc::try_clone(levers)?;
    Ok(RowDisk::new(held, shown, torn, levers, None))
}

/// So many new disks in memory, for the users of controllers one after the other.
pub fn users_disks(alloc: Global, count: usize) -> Result<Vec<MemDisk>> {
    let mut disks = Vec::new(alloc);
    for _ in 0..count {
        disks.push(users_disk(alloc)?)?;
    }
    Ok(disks)
}

fn users_disk(alloc: Global) -> Result<MemDisk> {
    let Ok(disk) = MemDisk::new(alloc, Vec::new(alloc), Vec::new(alloc)) else {
        bail!("no memory");
    };
    Ok(disk)
}

/// From now on the disk does what the session says.
pub fn set(levers: &Levers, session: Part<'_, '_>) -> Result<()> {
    let failing = session.number_at("fails")?;
    levers.set(failing, session.has("shows"));
    Ok(())
}
