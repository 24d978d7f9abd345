//! Paull's chains (1962): how a new leg finds its middle by moves that interrupt no other leg.
#![tactic(auto)]

mod choices;
mod exchange;
pub mod laws;
mod ops;
mod plan;
mod walk;
mod works;

pub use choices::expand;
pub use ops::{apply, undo};
pub use plan::{may_join, plan_chain, plan_join};
pub use works::{apply_work, undo_work};
