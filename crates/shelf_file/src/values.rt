ghost use Rattle.std.specs.Prelude.{◌≡◌, Some, None, option_map, MatchOption};
ghost use Rattle.toml.specs.View.{view};
ghost use Rattle.shelf_file.specs.Keys.{number_of, sid_of, modules_of, slots_of};

use dxc_num::Shape;
use tl1_text::Sid;
use toml::Value;

/// A whole number that isn't negative.
pub fn number_in(value: &Value) -> Option<u64>
    ensures { result ≡ number_of (view value.now) }
{
    match value.as_integer() {
        Some(number) if number >= 0 => Some(number as u64),
        _ => None,
    }
}

/// The source identifier.
pub fn sid_in(value: &Value) -> Option<Sid>
    ensures { result ≡ sid_of (view value.now) }
{
    match value.as_str() {
        Some(text) => Sid::of(text.as_bytes()),
        None => None,
    }
}

/// How many modules there are.
pub fn modules_in(value: &Value) -> Option<u16>
    ensures { result ≡ modules_of (view value.now) }
{
    match number_in(value) {
        Some(number) if (2..=Shape::MODULES as u64).contains(&number) => Some(number as u16),
        _ => None,
    }
}

/// How many slots a module has.
pub fn slots_in(value: &Value) -> Option<u16>
    ensures { result ≡ slots_of (view value.now) }
{
    match number_in(value) {
        Some(number) if (1..=Shape::SLOTS as u64).contains(&number) => Some(number as u16),
        _ => None,
    }
}
