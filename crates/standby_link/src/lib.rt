//! Mirrors a journal's disk calls to a second controller over a link, and serves such a mirror on a disk of its own.
#![tactic(auto)]

mod ear;
mod end;
mod heard;
mod in_hand;
mod joins;
mod known_disk;
pub mod laws;
mod line;
mod made;
mod mirror;
mod mirror_disk;
mod serve;
mod spell;

pub use dxc_outside::Lost;
pub use end::StandbyEnd;
pub use mirror::Mirror;
pub use mirror_disk::MirrorDisk;
pub use serve::serve_standby;
