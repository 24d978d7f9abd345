ghost use Rattle.std.specs.Prelude.{IfOk};
ghost use Rattle.dxc_load.specs.LoadShelf.{IsLoadShelf};

use dxc_causes::NoMemory;
use shelf_file::{Shelf, ShelfFault, shelf_of};
use std::alloc::Global;

/// The element of the load: 8 modules of 24 slots, all equipped, and one user, whose PID is bc.
const SHELF: &[u8] = b"sid=\"LOAD\"
modules=8
slots=24
[[user]]
uid=\"LOAD\"
class=\"P\"
salt=\"61\"
digest=\"ba7816bf8f01cfea414140de5dae2223b00361a396177a9cb410ff61f20015ad\"
";

/// The shelf that is described so.
pub fn load_shelf(alloc: Global) -> Result<Shelf, NoMemory>
    ensures { IfOk result IsLoadShelf }
{
    match shelf_of(alloc, SHELF) {
        Ok(shelf) => Ok(shelf),
        Err(ShelfFault::NoMemory) => Err(NoMemory),
        Err(_) => unreachable!(),
    }
}
