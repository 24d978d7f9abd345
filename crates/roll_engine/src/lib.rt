//! Makes the register writes of a work, in order, beside running frames.
#![tactic(auto)]

pub mod cold;
mod halt;
pub mod laws;
mod looks;
mod make;
mod rolling;
pub mod run;
mod several;

pub use halt::Halt;
pub use rolling::{Behind, Rolling};
