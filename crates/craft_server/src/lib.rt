//! The program's modes: what its words ask for, and what is done.
#![tactic(auto)]

mod jobs;
mod links;
mod load;
mod run;
mod script;
mod serve;
mod sessions;
mod trial;
mod world;

pub use dxc_args::{JournalBad, Line, Status, WordsFault, line_of};
pub use dxc_jobs::{FrameJob, FramesDone, FramesLeft};
pub use links::{LinksEnd, serve_links};
pub use run::dxc_run;
pub use serve::serve_all;
pub use sessions::{SessionDone, SessionJob};
pub use world::{Ground, Station, World};
