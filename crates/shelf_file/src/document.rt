ghost use Rattle.std.specs.Prelude.{◌≡◌, ◌≤◌, ◌⊎◌, MatchResult, option_map, length};
ghost use Rattle.toml.specs.Data.{get_member};
ghost use Rattle.toml.specs.Errors.{IsMemory};
ghost use Rattle.toml.specs.View.{view, table_view};
ghost use Rattle.shelf_file.specs.Checks.{IsDocument, IsFirstFault, most_bytes};

use crate::fault::ShelfFault;
use std::alloc::Global;
use toml::de::Error;
use toml::{Table, Value};

/// The document of a file.
pub fn read(alloc: Global, bytes: &[u8]) -> Result<Table, ShelfFault>
    requires { length bytes.now ≤ most_bytes }
    ensures { MatchResult result (λ t. IsDocument bytes.now (table_view t))
        (IsFirstFault bytes.now) }
{
    match toml::table_from_slice(alloc, bytes) {
        Ok(table) => Ok(table),
        Err(error) => Err(fault_of(&error)),
    }
}

fn fault_of(error: &Error) -> ShelfFault
    ensures { (result ≡ ShelfFault.NoMemory)
        ⊎ ((result ≡ ShelfFault.NotToml) × ¬ IsMemory error.now) }
{
    if error.is_memory() {
        ShelfFault::NoMemory
    } else {
        ShelfFault::NotToml
    }
}

/// The value at a key.
pub fn value_at<'a>(table: &'a Table, key: &str) -> Option<&'a Value>
    ensures { option_map (λ v. view v.now) result ≡ get_member key.now (table_view table.now) }
{
    table.get(key)
}
