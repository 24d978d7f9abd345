use fabric_words::WorkerSeat;
use frame_worker::LinesEnd;

/// What the job of a worker lets go: its lines and its gate, as they stand after its last frame.
#[derive(Drop)]
pub struct FramesDone<N, G> {
    pub lines: N,
    pub gate: G,
}

/// What it leaves: its seat, and why the last frame was the last.
#[derive(Drop)]
pub struct FramesLeft {
    pub seat: WorkerSeat,
    pub end: LinesEnd,
}
