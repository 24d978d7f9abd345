ghost use Rattle.std.specs.Prelude.{◌≡◌, ◌<◌, ◌≤◌, ◌+◌, ◌^◌, ℕ, true, false, Some, None, is_some, MatchOption, MatchResult, option_map, codes, map, length};
ghost use Rattle.std.specs.List.{list_all};
ghost use Rattle.toml.specs.Data.{as_table, get_member};
ghost use Rattle.toml.specs.View.{view, table_view};
ghost use Rattle.dxc_model.specs.Equipment.{has_bit};
ghost use Rattle.shelf_file.specs.Keys.{number_of, list_of, names_module, numbers_in, are_modules, equipped_of, users_of, tables_in, are_tables as tables_alone, value_at as value_of};
ghost use Rattle.shelf_file.specs.Checks.{fault_at, fault_if_there};
ghost use Rattle.shelf_file.specs.Contents.{Marks, AreMarked, named_in};

use crate::document::value_at;
use crate::fault::{ShelfFault, ShelfKey};
use crate::keys::required;
use crate::values::number_in;
use dxc_model::equipment;
use toml::value::Array;
use toml::{Table, Value};

/// The module that a value names by its number from 1, counted from 0.
fn module_in(value: &Value, modules: u16) -> Option<u16>
    ensures { MatchOption result (names_module modules (view value.now) ≡ false)
        (λ m. (names_module modules (view value.now) ≡ true)
        × (number_of (view value.now) ≡ Some (m + 1)) × (m < modules)) }
{
    match number_in(value) {
        Some(number) if (1..=modules as u64).contains(&number) => Some((number - 1) as u16),
        _ => None,
    }
}

/// The modules that a list names, as bits; None exactly where it isn't a list of different modules.
pub fn marks_in(list: &Array, modules: u16) -> Option<u64>
    requires { modules ≤ 64 }
    ensures { MatchOption result (are_modules modules (map view list.now.items) ≡ false)
        (λ bits. (are_modules modules (map view list.now.items) ≡ true) × (bits < 2 ^ modules)
        × Marks modules bits (numbers_in (map view list.now.items))) }
{
    let mut bits = 0;
    for value in list {
        let module = module_in(value, modules)?;
        if equipment::has(bits, module) {
            return None;
        }
        bits = equipment::with(bits, module);
    }
    Some(bits)
}

/// All modules, as bits.
pub fn all_marks(modules: u16) -> u64
    requires { modules ≤ 64 }
    ensures below { result < 2 ^ modules }
    ensures all { (m : ℕ) → m < modules → has_bit result m ≡ true }
{
    let mut bits = 0;
    for module in 0..modules {
        bits = equipment::with(bits, module);
    }
    bits
}

/// Whether the list has 1 to 64 tables and nothing else.
pub fn are_tables(list: &Array) -> bool
    ensures { result ≡ tables_alone (map view list.now.items) }
{
    (1..=64).contains(&list.len()) && all_tables(list)
}

fn all_tables(list: &Array) -> bool
    ensures { result ≡ list_all (λ v. is_some (as_table (view v))) list.now.items }
{
    list.iter().all(|value| value.as_table().is_some())
}

/// The list that a value is.
fn list_in(value: &Value) -> Option<&Array>
    ensures { option_map (λ v. map view v.now.items) result ≡ list_of (view value.now) }
{
    value.as_array()
}

fn marked(value: &Value, modules: u16) -> Option<u64>
    requires { modules ≤ 64 }
    ensures { MatchOption result (equipped_of modules (view value.now) ≡ None) (λ bits.
        (bits < 2 ^ modules) × AreMarked modules bits (equipped_of modules (view value.now))) }
{
    match list_in(value) {
        Some(list) => marks_in(list, modules),
        None => None,
    }
}

/// The equipped modules, as bits: those that the list names, or all where the key is left out.
pub fn equipped_at(table: &Table, modules: u16) -> Result<u64, ShelfFault>
    requires { modules ≤ 64 }
    ensures { MatchResult result (λ bits. (bits < 2 ^ modules) × AreMarked modules bits
        (named_in modules (get_member (codes "equipped") (table_view table.now))))
        (λ f. fault_if_there ShelfKey.Equipped 0 (option_map (equipped_of modules)
        (get_member (codes "equipped") (table_view table.now))) ≡ Some f) }
{
    let Some(value) = value_at(table, "equipped") else {
        return Ok(all_marks(modules));
    };
    marked(value, modules).ok_or(ShelfFault::Bad {
        key: ShelfKey::Equipped,
        user: 0,
    })
}

/// The list of the users' tables.
pub fn user_list_at(table: &Table) -> Result<&Array, ShelfFault>
    ensures { MatchResult result (λ v. (value_of (codes "user") users_of (table_view table.now)
        ≡ Some (tables_in (map view v.now.items))) × (tables_alone (map view v.now.items) ≡ true))
        (λ f. fault_at ShelfKey.User 0 (codes "user") users_of (table_view table.now) ≡ Some f) }
{
    let key = ShelfKey::User;
    let value = required(table, "user", key, 0)?;
    match list_in(value) {
        Some(list) if are_tables(list) => Ok(list),
        _ => Err(ShelfFault::Bad { key, user: 0 }),
    }
}
