//! The program's words: what they ask for, and the status that the program ends with.
#![tactic(auto)]

mod line;
mod matching;
mod number;
mod status;
mod workers;

pub use line::{Line, ServeLine, WordsFault, line_of};
pub use status::{JournalBad, Status};
pub use workers::Workers;
