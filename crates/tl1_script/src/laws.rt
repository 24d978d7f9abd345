//! What is true of every table and its commands, as the contracts of functions without parameters.
ghost use Rattle.tl1_script.specs.Laws.{ChangesComeToTables, CommandsAskForChanges};

/// From the empty table of a shape, whatever it equips, each change to a table of that shape is granted in its turn, and they come to it.
pub fn changes_come_to_tables()
    ensures { ChangesComeToTables }
{}

/// The command that is written for a change is one in the grammar, and asks for the operation that the change itself names.
pub fn commands_ask_for_changes()
    ensures { CommandsAskForChanges }
{}
