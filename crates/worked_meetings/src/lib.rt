//! What rows of several sessions at once are run over: callers, gates and lines that wait for one another, each on a thread of its own, the opener that hands
//! them out, and what the rows' lines say of them.
#![tactic(auto)]

mod clock;
mod cue;
mod gate;
mod lines;
mod link;
mod listener;
mod meeting;
mod opener;
mod read;
mod row;

pub use clock::standing;
pub use cue::{Cue, Script};
pub use gate::{Act, Cued, CuedGate};
pub use lines::{WatchedLines, Worker};
pub use link::CueLink;
pub use listener::OneCaller;
pub use meeting::Meeting;
pub use opener::SessionsOpener;
pub use read::{Session, act_of, session_of};
pub use row::{Carried, Size, carried_of, last_frames, stands_of};
