//! The element that the program runs, without a session: opened by the names of its files, alone or with a standby that mirrors its journal,
//! or on new disks in memory; what its journal came to, and what its sessions left.
#![tactic(auto)]

mod check;
mod export;
mod load;
mod memory;
mod opening;
mod peer;
mod stock;

pub use check::{WORKERS, run_check};
pub use export::run_export;
pub use load::load_element;
pub use memory::memory_element;
pub use opening::{Controller, Element, Names, open};
pub use peer::{Mirror, open_mirrored};
pub use stock::{Stock, stock_of};
