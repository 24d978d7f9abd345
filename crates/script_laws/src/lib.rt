//! What holds of a table's commands on larger shelves, as the contract of a function without parameters.
#![tactic(auto)]

ghost use Rattle.script_laws.specs.Larger.{ScriptsSuitLargerShelves};

/// The commands that make a table make the table of the same names on a larger shelf.
pub fn scripts_suit_larger_shelves()
    ensures { ScriptsSuitLargerShelves }
{}
