//! The turns of a place: each enters, does one thing with the state, and leaves with the place's entry.
mod changes;
mod looks;

use crate::provisioner::Driver;
pub use changes::{bring, cut, deny, fail, take};
use dbchg_reports::Since;
use dxc_disk::Disk;
use dxc_model::Cause;
use dxc_num::Middle;
pub use looks::{look, mark, read_inventory, rows};

/// What came of a turn in which a change was to begin.
#[derive(Drop)]
pub enum Took<D: Disk> {
    /// The place has the Provisioner, the change's work is planned, and this is its record, which is to be journalled.
    Rolling(Box<Driver<D>>, [u8; 64]),
    Denied(Cause),
    /// The Provisioner is home and halted: a restart is due.
    Halted,
    /// Another place has the Provisioner.
    Waits,
}

/// What a look at the changes found.
#[derive(Clone, Copy, PartialEq, Eq)]
pub struct Looked {
    pub since: Since,
    /// The number of the newest change.
    pub newest: u64,
}

/// What the table holds besides connections.
#[derive(Clone, Copy)]
pub struct Inventory {
    /// How many modules the shape has.
    pub modules: u16,
    /// Which of them are equipped, bit m for module m from 0.
    pub equipped: u64,
    /// The middle that is out of service.
    pub out: Option<Middle>,
}
