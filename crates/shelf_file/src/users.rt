ghost use Rattle.std.specs.Prelude.{◌≡◌, ◌<◌, true, Some, None, MatchResult, map, length, slice_index_or};
ghost use Rattle.std.specs.List.{list_any};
ghost use Rattle.std.specs.Str.{bytes_eq};
ghost use Rattle.toml.specs.Data.{no_members};
ghost use Rattle.toml.specs.View.{view, table_view};
ghost use Rattle.shelf_file.specs.Keys.{tables_in, are_tables};
ghost use Rattle.shelf_file.specs.Checks.{key_checks, checks_of, users_checks, first_some};
ghost use Rattle.shelf_file.specs.Contents.{IsUser, AreUsers};
ghost use Rattle.shelf_file.specs.Users.{entry_of, entries_of, names_in, Adds, IsFaultOf};

use crate::fault::ShelfFault;
use crate::keys::{class_at, digest_at, salt_at, uid_at};
use crate::user::{Uid, User};
use std::alloc::Global;
use toml::Table;
use toml::value::Array;

/// The user that a table describes.
fn user_in(table: &Table, number: u16) -> Result<User, ShelfFault>
    ensures { MatchResult result (λ u. IsUser (table_view table.now) (entry_of u))
        (λ f. first_some (key_checks number (table_view table.now)) ≡ Some f) }
{
    let uid = uid_at(table, number)?;
    let class = class_at(table, number)?;
    let salt = salt_at(table, number)?;
    let digest = digest_at(table, number)?;
    Ok(User {
        uid,
        class,
        salt,
        digest,
    })
}

/// Whether a user has the name.
fn has_name(users: &[User], name: &Uid) -> bool
    ensures { result ≡ list_any (λ u. bytes_eq name.now.items u.uid.items) users.now }
{
    users
        .iter()
        .any(|user| name.as_slice() == user.uid.as_slice())
}

/// Adds the user that a table describes.
fn add_user(users: &mut Vec<User>, table: &Table, number: u16) -> Result<(), ShelfFault>
    ensures { MatchResult result (λ _. Adds (table_view table.now) number
        (entries_of users.old.items) (entries_of users.new.items)) (IsFaultOf
        (checks_of (names_in (entries_of users.old.items)) number (table_view table.now))) }
{
    let user = user_in(table, number)?;
    if has_name(users.as_slice(), &user.uid) {
        return Err(ShelfFault::TwoUsers { user: number });
    }
    match users.push(user) {
        Ok(_) => Ok(()),
        Err(_) => Err(ShelfFault::NoMemory),
    }
}

/// The table at a place of a list of tables.
fn table_in(list: &Array, place: usize) -> &Table
    requires tables { are_tables (map view list.now.items) ≡ true }
    requires within { place < length list.now.items }
    ensures { table_view result.now ≡ slice_index_or (tables_in (map view list.now.items)) place
        no_members }
{
    match list[place].as_table() {
        Some(table) => table,
        None => unreachable!(),
    }
}

/// The users that the tables of a list describe, or the first fault of their checks.
pub fn users_in(alloc: Global, list: &Array) -> Result<Vec<User>, ShelfFault>
    requires { are_tables (map view list.now.items) ≡ true }
    ensures { MatchResult result
        (λ m. AreUsers (tables_in (map view list.now.items)) (entries_of m.items)
        × (first_some (users_checks (tables_in (map view list.now.items))) ≡ None))
        (IsFaultOf (users_checks (tables_in (map view list.now.items)))) }
{
    let mut users = Vec::new(alloc);
    for place in 0..list.len() {
        add_user(&mut users, table_in(list, place), place as u16 + 1)?;
    }
    Ok(users)
}
