//! What the rows of restarts have that knows no session: what their lines say, the registers on which a controller is opened, the workers that carry
//! frames beside it, and the comparing of both with what a row says.
#![tactic(auto)]

mod carriage;
mod carrier;
mod compare;
mod crew;
mod disks;
mod ground;
mod layout;
mod reader;
mod row;
mod talk;
mod texts;

pub use carrier::Carrier;
pub use compare::{compare_counts, compare_frames};
pub use crew::{Crew, second_seat};
pub use disks::{disk_of, set, users_disks};
pub use ground::{Ground, Laid, lay};
pub use layout::{is_inside, registers};
pub use reader::{follow, hold};
pub use row::{WORDS, same_as_said, spelled_out};
pub use talk::Talk;
pub use texts::text_of;
