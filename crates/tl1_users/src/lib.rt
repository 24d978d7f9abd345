//! The commands that keep users: what a unit's blocks ask of the users, or why it is denied before they are asked.
#![tactic(auto)]

mod code;
mod command;
mod op;

pub use command::{is_of_users, user_command_of};
pub use op::{Pid, UserOp};
