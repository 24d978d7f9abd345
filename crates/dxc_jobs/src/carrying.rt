//! What the job of a frame worker does.
ghost use Rattle.dxc_jobs.specs.Framed.{RanFrames};

use crate::frames::FrameJob;
use crate::frames_left::{FramesDone, FramesLeft};
use crate::task::Task;
use dxc_outside::{Gate, Lines};
use frame_worker::run_lines;
use std::sync::Wait;

impl<N: Lines + Send + Drop + 'static, G: Gate + Send + Drop + 'static> Task for FrameJob<N, G> {
    type Done = FramesDone<N, G>;

    type Left = FramesLeft;

    ghost ran = { RanFrames N.Lines G.Gate };

    /// Carries frames until its lines end or fail, or the gate stops.
    fn run<R: Wait>(self, _rt: &R) -> (FramesDone<N, G>, FramesLeft) {
        let FrameJob {
            fabric,
            mut seat,
            mut lines,
            mut gate,
            mut input,
            mut output,
        } = self;
        let end = run_lines(
            &fabric,
            &mut seat,
            &mut lines,
            &mut gate,
            &mut input,
            &mut output,
        );
        let left = FramesLeft {
            seat: seat.into_inner(),
            end,
        };
        (FramesDone { lines, gate }, left)
    }
}
