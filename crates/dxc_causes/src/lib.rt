//! What a count of faults tells of a call, and want of memory: the words on which every crate stands.
#![tactic(auto)]

mod no_memory;

pub use no_memory::NoMemory;
