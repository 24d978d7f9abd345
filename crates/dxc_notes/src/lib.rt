//! What the program notes of its callers while it serves, where that goes, and what stands of the program there, as a trait with a fake in
//! memory; `dxc_host` has its adapter over standard error.
#![tactic(auto)]

mod command;
mod mem_notes;
mod note;
mod notes;
mod silence;
mod standing;
mod word;

pub use command::{Command, Outcome, PortAt, UserChange, UserCommand, What};
pub use mem_notes::MemNotes;
pub use note::{Ending, Note};
pub use notes::{Noted, Notes};
pub use silence::Silence;
pub use standing::{PLACES, SessionAt, Standby, Standing};
pub use word::Word;
