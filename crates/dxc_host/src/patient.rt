ghost use Rattle.std.specs.Prelude.{◌≤◌, length, IfOk};

use std::io::{self, ErrorKind, Write};
use std::rt::Clock as SystemClock;
use std::thread;
use std::time::Duration;

/// How long a call rests where a stream that doesn't block has nothing to give, or no room.
const REST_MILLIS: u64 = 50;

/// How often a write is tried again where there is no room: for ten seconds in all.
const MOST_RESTS: u32 = 200;

/// A writer that waits ten seconds for room before it fails.
#[derive(Drop)]
pub(crate) struct Patient<W, T> {
    pub(crate) output: W,
    pub(crate) system: T,
}

impl<W: Write, T: SystemClock> Patient<W, T> {
    // Tries again where there was no room.
    #[inline(never)]
    fn write_later(&mut self, from: &[u8]) -> io::Result<usize>
        ensures { IfOk result (λ count. count ≤ length from.now) }
    {
        for _ in 1..MOST_RESTS {
            rest(&self.system);
            match self.output.write(from) {
                Err(e) if e.kind() == ErrorKind::WouldBlock => {}
                answer => return answer,
            }
        }
        rest(&self.system);
        self.output.write(from)
    }
}

impl<W: Write, T: SystemClock> Write for Patient<W, T> {
    // Into its caller, which wants no more than the count of a result of a hundred bytes.
    #[inline(always)]
    fn write(&mut self, from: &[u8]) -> io::Result<usize> {
        match self.output.write(from) {
            Err(e) if e.kind() == ErrorKind::WouldBlock => self.write_later(from),
            answer => answer,
        }
    }

    fn flush(&mut self) -> io::Result<()> {
        self.output.flush()
    }
}

/// A standard stream can't be waited for, so it is asked again after a rest.
pub(crate) fn rest<T: SystemClock>(system: &T) {
    thread::sleep(system, Duration::from_millis(REST_MILLIS));
}
