//! The text of TL1 commands: a stream of bytes is cut into units, and a unit into blocks and parameters.
#![tactic(auto)]

mod ctag;
mod cutting;
mod front;
pub mod grammar;
mod kept;
pub mod laws;
mod leaps;
mod letter;
mod look;
mod reader;
mod sid;
mod span;
mod stops;
mod values;

pub use ctag::{Ctag, ctag_in, ctag_of};
pub use reader::{Fed, UnitKind, UnitReader};
pub use sid::Sid;
pub use span::{BadText, Blocks, Span};
pub use values::{Param, first_param, params};
