ghost use Rattle.std.specs.Prelude.{◌≡◌, ◌≤◌, [], ◌∷◌, Some, MatchResult, codes, length};
ghost use Rattle.dxc_num.specs.Dimensions.{IsInLimits};
ghost use Rattle.toml.specs.View.{table_view};
ghost use Rattle.shelf_file.specs.Keys.{modules_of, slots_of, value_at};
ghost use Rattle.shelf_file.specs.Checks.{fault_at, first_some, checks, IsFirstFault};
ghost use Rattle.shelf_file.specs.Contents.{Describes, IsShelf};
ghost use Rattle.shelf_file.specs.Users.{IsFaultOf};

use crate::document::read;
use crate::fault::{ShelfFault, ShelfKey};
use crate::idle::idle_at;
use crate::keys::{modules_at, sid_at, slots_at};
use crate::lists::{equipped_at, user_list_at};
use crate::shelf::Shelf;
use crate::users::users_in;
use dxc_num::Shape;
use std::alloc::Global;
use toml::Table;

/// The shelf that the bytes of a file describe, else the first fault that its checks find, with its key and its
/// user's number. The checks stand in this order: the length, the TOML document, the keys `sid`, `modules`, `slots`,
/// `equipped`, `idle` and `user`, and then for each user the keys `uid`, `class`, `salt` and `digest` and its name.
pub fn shelf_of(alloc: Global, bytes: &[u8]) -> Result<Shelf, ShelfFault>
    ensures { MatchResult result (IsShelf bytes.now) (IsFirstFault bytes.now) }
{
    if bytes.len() > Shelf::MOST_BYTES {
        return Err(ShelfFault::TooLarge);
    }
    match read(alloc, bytes) {
        Ok(table) => shelf_in(alloc, &table),
        Err(fault) => Err(fault),
    }
}

/// The shelf that a document describes.
fn shelf_in(alloc: Global, table: &Table) -> Result<Shelf, ShelfFault>
    ensures { MatchResult result (Describes (table_view table.now))
        (IsFaultOf (checks (table_view table.now))) }
{
    let sid = sid_at(table)?;
    let shape = shape_at(table)?;
    let equipped = equipped_at(table, shape.modules())?;
    let idle = idle_at(table)?;
    let list = user_list_at(table)?;
    let users = users_in(alloc, list)?;
    Ok(Shelf {
        sid,
        shape,
        equipped,
        idle,
        users,
    })
}

/// The numbers of modules and slots, each within its limits.
fn shape_at(table: &Table) -> Result<Shape, ShelfFault>
    ensures { MatchResult result
        (λ d. (value_at (codes "modules") modules_of (table_view table.now) ≡ Some d.modules)
        × (value_at (codes "slots") slots_of (table_view table.now) ≡ Some d.slots) × IsInLimits d)
        (λ f. first_some
        (fault_at ShelfKey.Modules 0 (codes "modules") modules_of (table_view table.now) ∷ fault_at
        ShelfKey.Slots 0 (codes "slots") slots_of (table_view table.now) ∷ []) ≡ Some f) }
{
    let modules = modules_at(table)?;
    let slots = slots_at(table)?;
    match Shape::new(modules, slots) {
        Some(shape) => Ok(shape),
        None => unreachable!(),
    }
}
