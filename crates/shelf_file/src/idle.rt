ghost use Rattle.std.specs.Prelude.{◌≡◌, Some, None, MatchOption, MatchResult, option_map, codes};
ghost use Rattle.toml.specs.Data.{get_member};
ghost use Rattle.toml.specs.View.{view, table_view};
ghost use Rattle.shelf_file.specs.Keys.{minutes_of, limit_of, limits_in, idle_of, idle_named, no_limits};
ghost use Rattle.shelf_file.specs.Checks.{fault_if_there};

use crate::document::value_at;
use crate::fault::{ShelfFault, ShelfKey};
use crate::values::number_in;
use dxc_model::Class;
use toml::{Table, Value};

/// After how many minutes without a byte a session of each class ends, 1 to 1,440; None: it goes on.
#[derive(Clone, Copy)]
pub struct IdleLimits {
    pub r: Option<u16>,
    pub p: Option<u16>,
    pub s: Option<u16>,
}

/// The most minutes of a limit.
const MOST_MINUTES: u64 = 1440;

impl IdleLimits {
    ghost use Rattle.shelf_file.specs.Shelves.{limit_for};

    /// No class has a limit.
    pub fn none() -> IdleLimits
        ensures { result ≡ no_limits }
    {
        IdleLimits {
            r: None,
            p: None,
            s: None,
        }
    }

    /// The minutes of a class.
    pub fn of(self, class: Class) -> Option<u16>
        ensures { result ≡ limit_for self class }
    {
        match class {
            Class::R => self.r,
            Class::P => self.p,
            Class::S => self.s,
        }
    }
}

fn minutes_in(value: &Value) -> Option<u16>
    ensures { result ≡ minutes_of (view value.now) }
{
    match number_in(value) {
        Some(number) if (1..=MOST_MINUTES).contains(&number) => Some(number as u16),
        _ => None,
    }
}

/// What is named at a class: None where it isn't as it has to be.
fn limit_at(table: &Table, class: &str) -> Option<Option<u16>>
    ensures { result ≡ limit_of (get_member class.now (table_view table.now)) }
{
    match value_at(table, class) {
        Some(value) => minutes_in(value).map(Some),
        None => Some(None),
    }
}

fn limits_at(table: &Table) -> Option<IdleLimits>
    ensures { result ≡ limits_in (table_view table.now) }
{
    let r = limit_at(table, "R")?;
    let p = limit_at(table, "P")?;
    let s = limit_at(table, "S")?;
    Some(IdleLimits { r, p, s })
}

/// The value at `idle`.
fn idle_in(value: &Value) -> Option<IdleLimits>
    ensures { result ≡ idle_of (view value.now) }
{
    match value.as_table() {
        Some(table) => limits_at(table),
        None => None,
    }
}

/// How long each class may be idle; without a limit where the key is left out.
pub fn idle_at(table: &Table) -> Result<IdleLimits, ShelfFault>
    ensures { MatchResult result
        (λ i. idle_named (get_member (codes "idle") (table_view table.now)) ≡ Some i)
        (λ f. fault_if_there ShelfKey.Idle 0
        (option_map idle_of (get_member (codes "idle") (table_view table.now))) ≡ Some f) }
{
    let Some(value) = value_at(table, "idle") else {
        return Ok(IdleLimits::none());
    };
    idle_in(value).ok_or(ShelfFault::Bad {
        key: ShelfKey::Idle,
        user: 0,
    })
}
