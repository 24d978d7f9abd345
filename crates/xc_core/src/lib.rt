//! The controller's core: the state that stands for the history of changes, and the Provisioner that plans them, journals them and makes their
//! register writes.
#![tactic(auto)]

mod adopting;
mod beginning;
mod checkpoint;
mod fault;
mod granted;
mod inside;
mod keep;
mod limit;
mod noting;
mod opening;
mod origin;
mod provisioner;
mod recovery;
mod replayed;
pub mod restarts;
mod resuming;
mod start;
mod state;
pub mod turns;

pub use adopting::Adopted;
pub use beginning::plan_copied;
pub use fault::OpenFault;
pub use noting::{Noted, note};
pub use opening::Core;
pub use origin::Origin;
pub use provisioner::{Driver, Provisioner, drive, halt, release, settle};
pub use recovery::{Recovered, end_recovery, recover};
pub use resuming::{Reread, read_anew};
pub use state::{Errand, Home, State, finish};
