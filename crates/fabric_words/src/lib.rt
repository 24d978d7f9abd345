//! The core's state on shared words: each call of a seat that takes a `&Fabric` is one atomic step on one word, and one event of the core.
#![tactic(auto)]

mod ask;
mod fabric;
pub mod laws;
mod layout;
mod looks;
mod mover;
mod path;
mod permit;
pub mod place;
mod plays;
mod reader;
mod stand;
mod table;
mod worker;

pub use fabric::Fabric;
pub use fabric_core::{CoreEvent, Phase};
pub use mover::MoverSeat;
pub use permit::Permit;
pub use reader::Reader;
pub use table::{Aim, FabricRule, View};
pub use worker::WorkerSeat;
