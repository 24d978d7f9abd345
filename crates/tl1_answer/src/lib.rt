//! The bytes of TL1 answers: responses cut into blocks, reports, and the texts of rows and changes.
#![tactic(auto)]

mod answer;
mod append;
mod denials;
pub mod laws;
mod message;
mod program;
mod stamp;
mod text;

pub use answer::{Answer, Code, Fits};
pub use program::{session_text, start_text, value_text};
pub use text::{change_text, conn_text, middle_text, module_text, row_text};
