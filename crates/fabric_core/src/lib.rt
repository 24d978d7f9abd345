//! The fabric as plain data: its registers, the mover that writes them and the workers that read them. Whatever list of their single
//! steps is taken, each established connection keeps a whole path and carries its own slots.
#![tactic(auto)]

mod allowed;
pub mod cell;
mod event;
pub mod laws;
mod mover;
mod phase;
mod registers;
mod row;
mod seen;
mod size;
mod state;
mod step;
mod worker;

pub use allowed::MOST_SWITCHES;
pub use event::{Actor, CoreEvent};
pub use mover::Mover;
pub use phase::Phase;
pub use registers::Registers;
pub use row::Row;
pub use seen::Seen;
pub use size::Size;
pub use state::CoreState;
pub use step::core_step;
pub use worker::{Hold, Note, Worker};
