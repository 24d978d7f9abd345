//! What the program says by itself, and what it is given: its words, its help, the texts of faults and the standard streams.
#![tactic(auto)]

mod help;
mod sources;
mod streams;
mod telling;
mod why;
mod words;

pub use help::{VERSION, help_asked};
pub use streams::{Held, held_streams};
pub use telling::{Printing, Telling};
pub use why::{tell_standby, tell_status};
pub use words::{only_look, words_given};
