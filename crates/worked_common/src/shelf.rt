ghost use Rattle.std.specs.Prelude.{◌≤◌, length};
ghost use Rattle.dxc_outside.specs.Openings.{most_shelf_bytes};

use crate::words::{decimal, joined};
use anyhow::Result;
use dxc_outside::most_shelf_bytes;
use std::alloc::Global;

/// A shelf file of an element DXC1 of this shape, all of whose modules are equipped, with a user ANNA of class S, whose PID is bc.
pub fn shelf_text(alloc: Global, modules: u16, slots: u16) -> Result<String> {
    let (modules, slots) = (
        decimal(alloc, modules as u64)?,
        decimal(alloc, slots as u64)?,
    );
    joined(
        alloc,
        &[
            "sid = \"DXC1\"\nmodules = ",
            modules.as_str(),
            "\nslots = ",
            slots.as_str(),
            "\n[[user]]\nuid = \"ANNA\"\nclass = \"S\"\nsalt = \"61\"\n",
            "digest = \"ba7816bf8f01cfea414140de5dae2223b00361a396177a9cb410ff61f20015ad\"\n",
        ],
    )
}

/// What an opener reads of a shelf file.
pub fn read_part(shelf: &[u8]) -> &[u8]
    ensures { length result.now ≤ most_shelf_bytes }
{
    &shelf[..shelf.len().min(most_shelf_bytes())]
}
