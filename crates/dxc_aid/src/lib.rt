//! Access identifiers (AIDs, GR-831): names of ports, modules and middles, read and written.
#![tactic(auto)]

pub mod laws;
mod read;
mod text;
mod write;

pub use read::{middle_of, module_of, port_of, selection_of};
pub use text::Text;
pub use write::{put_port, write_middle, write_module, write_port};
