//! The workers that carry frames: a byte in for each input, a byte out for each output, by the registers as they stand.
#![tactic(auto)]

mod carry;
pub mod laws;
mod lines;
mod outputs;

pub use carry::carry_frame;
pub use lines::{LinesEnd, run_lines};
