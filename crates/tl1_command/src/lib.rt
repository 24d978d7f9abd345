//! The meaning of a unit's text: the command that it asks for, or why it is denied before the table is asked. The layout
//! is after GR-831, the command names after those of TL1 elements, for cross-connections after GR-199.
#![tactic(auto)]

mod asked;
pub mod checks;
pub mod code;
mod comma;
mod command;
mod decide;
mod form;
mod frequent;
pub mod laws;
pub mod parts;

pub use command::{Command, Subject};
pub use decide::{code_in, command_of, command_with};
pub use frequent::{Frequent, frequent_of};
