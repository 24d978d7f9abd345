//! Runs worked rows, which stand as text, through a closure that is handed each run of the program, and compares the status, what is written over each
//! link and line, the journals and the calls on them with what they say.
#![tactic(auto)]

mod files;
mod run;
mod sessions;
mod turn;
mod words;

pub use files::{Over, run_files};
pub use turn::{Beside, Turn};
