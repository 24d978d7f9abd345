//! What holds of every frame.
ghost use Rattle.frame_worker.specs.Laws.{AreOwnBytes};

/// Each worker's output byte is the input byte of its own connection: of the leg that was switched with the number that stands in the OUT
/// word which the worker loaded for that output. An output without a connection, and one of another worker, is idle.
pub fn own_bytes()
    ensures { AreOwnBytes }
{}
