//! A table as TL1: the commands that make it again on an element without connections.
#![tactic(auto)]

mod changes;
mod command;
pub mod laws;

pub use changes::changes_to;
pub use command::command_line;
