ghost use Rattle.std.specs.Prelude.{◌≡◌, Some, None, MatchResult, codes};
ghost use Rattle.toml.specs.Data.{get_member};
ghost use Rattle.toml.specs.View.{view, table_view};
ghost use Rattle.shelf_file.specs.Keys.{sid_of, modules_of, slots_of, uid_of, class_of, salt_of, digest_of, value_at as value_of};
ghost use Rattle.shelf_file.specs.Checks.{IsReading, entry_of, fault_at};

use crate::document::value_at;
use crate::fault::{ShelfFault, ShelfKey};
use crate::user::{Uid, class_in, digest_in, salt_in, uid_in};
use crate::values::{modules_in, sid_in, slots_in};
use arrayvec::ArrayVec;
use dxc_model::Class;
use tl1_text::Sid;
use toml::{Table, Value};

/// The value at a key that has to be there.
pub fn required<'a>(
    table: &'a Table,
    name: &str,
    key: ShelfKey,
    user: u16,
) -> Result<&'a Value, ShelfFault>
    ensures { MatchResult result
        (λ v. get_member name.now (table_view table.now) ≡ Some (view v.now)) (λ f.
        (get_member name.now (table_view table.now) ≡ None) × (f ≡ ShelfFault.Missing key user)) }
{
    match value_at(table, name) {
        Some(value) => Ok(value),
        None => Err(ShelfFault::Missing { key, user }),
    }
}

pub fn sid_at(table: &Table) -> Result<Sid, ShelfFault>
    ensures { IsReading (entry_of ShelfKey.Sid 0 (codes "sid")) sid_of (table_view table.now)
        result }
{
    let key = ShelfKey::Sid;
    let value = required(table, "sid", key, 0)?;
    sid_in(value).ok_or(ShelfFault::Bad { key, user: 0 })
}

pub fn modules_at(table: &Table) -> Result<u16, ShelfFault>
    ensures { IsReading (entry_of ShelfKey.Modules 0 (codes "modules")) modules_of
        (table_view table.now) result }
{
    let key = ShelfKey::Modules;
    let value = required(table, "modules", key, 0)?;
    modules_in(value).ok_or(ShelfFault::Bad { key, user: 0 })
}

pub fn slots_at(table: &Table) -> Result<u16, ShelfFault>
    ensures { IsReading (entry_of ShelfKey.Slots 0 (codes "slots")) slots_of (table_view table.now)
        result }
{
    let key = ShelfKey::Slots;
    let value = required(table, "slots", key, 0)?;
    slots_in(value).ok_or(ShelfFault::Bad { key, user: 0 })
}

/// A user's name, in upper case.
pub fn uid_at(table: &Table, user: u16) -> Result<Uid, ShelfFault>
    ensures { MatchResult result
        (λ k. value_of (codes "uid") uid_of (table_view table.now) ≡ Some k.items)
        (λ f. fault_at ShelfKey.Uid user (codes "uid") uid_of (table_view table.now) ≡ Some f) }
{
    let key = ShelfKey::Uid;
    let value = required(table, "uid", key, user)?;
    uid_in(value).ok_or(ShelfFault::Bad { key, user })
}

pub fn class_at(table: &Table, user: u16) -> Result<Class, ShelfFault>
    ensures { IsReading (entry_of ShelfKey.Class user (codes "class")) class_of
        (table_view table.now) result }
{
    let key = ShelfKey::Class;
    let value = required(table, "class", key, user)?;
    class_in(value).ok_or(ShelfFault::Bad { key, user })
}

pub fn salt_at(table: &Table, user: u16) -> Result<ArrayVec<u8, 32>, ShelfFault>
    ensures { MatchResult result
        (λ s. value_of (codes "salt") salt_of (table_view table.now) ≡ Some s.items)
        (λ f. fault_at ShelfKey.Salt user (codes "salt") salt_of (table_view table.now) ≡ Some f) }
{
    let key = ShelfKey::Salt;
    let value = required(table, "salt", key, user)?;
    salt_in(value).ok_or(ShelfFault::Bad { key, user })
}

pub fn digest_at(table: &Table, user: u16) -> Result<[u8; 32], ShelfFault>
    ensures { IsReading (entry_of ShelfKey.Digest user (codes "digest")) digest_of
        (table_view table.now) result }
{
    let key = ShelfKey::Digest;
    let value = required(table, "digest", key, user)?;
    digest_in(value).ok_or(ShelfFault::Bad { key, user })
}
