//! What the program runs without a session: workers that carry frames, and a standby's copy of a journal; and how jobs are started on
//! threads.
#![tactic(auto)]

mod begun;
mod carrying;
mod frames;
mod frames_left;
mod standby;
mod stood;
mod task;
mod threads;
mod workers;

pub use begun::RanAll;
pub use frames::FrameJob;
pub use frames_left::{FramesDone, FramesLeft};
pub use standby::{ACCEPT_FAILURES, run_standby};
pub use stood::Stood;
pub use task::Task;
pub use threads::run_all;
pub use workers::frame_jobs;
