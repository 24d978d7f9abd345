//! The records of the connection journal: a change of the table with the choices of its legs, as 64 bytes, and back. Each
//! value has one spelling. A record of version 1, which has 32 bytes, is read filled up with zeros.
#![tactic(auto)]

pub mod laws;
mod read;
mod write;

pub use read::entry_of;
pub use write::record_of;
