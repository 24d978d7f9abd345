ghost use Rattle.std.specs.Prelude.{◌≤◌, length, IfOk};

use crate::entrance::{Seat, is_readable};
use crate::keepalive::{self, FarEnd};
use crate::last_sync::LastSync;
use std::io::{self, ErrorKind, Read, Write};
use std::net::{Shutdown, TcpStream};
use std::time::Duration;

/// How long a read waits for bytes.
const READ_MILLIS: u64 = 200;

/// How long one call of the system waits for room.
const WRITE_MILLIS: u64 = 500;

/// A caller that took nothing in so many calls, in ten seconds, is given up.
const MOST_CALLS: u32 = 20;

/// A TCP stream whose reads wait for a fifth of a second, and whose writes wait ten seconds for a caller that takes nothing before they
/// fail. Where its caller's machine is gone both fail.
#[derive(Drop)]
pub(crate) struct Caller {
    stream: TcpStream,
    /// Of one that came in by an entrance.
    seat: Option<Seat>,
    /// Of a standby: the moment at which its primary has sent nothing more is kept there.
    last_sync: Option<LastSync>,
}

impl Caller {
    /// What is written isn't delayed by the host.
    pub(crate) fn new(stream: TcpStream, seat: Option<Seat>, far: FarEnd) -> io::Result<Caller> {
        stream.set_read_timeout(Some(Duration::from_millis(READ_MILLIS)))?;
        stream.set_write_timeout(Some(Duration::from_millis(WRITE_MILLIS)))?;
        stream.set_nodelay(true)?;
        keepalive::watch(&stream, far)?;
        Ok(Caller {
            stream,
            seat,
            last_sync: None,
        })
    }

    /// Keeps there from here on when nothing more was to be read.
    pub(crate) fn keep_waits(&mut self, last_sync: LastSync) {
        self.last_sync = Some(last_sync);
    }

    /// Ends both directions. Where that fails the connection is gone already.
    pub(crate) fn hang_up(&self) {
        let _ = self.stream.shutdown(Shutdown::Both);
    }

    /// The same, and what the other end hasn't got yet isn't sent again.
    pub(crate) fn give_up(&self) {
        let _ = keepalive::give_up(&self.stream);
        self.hang_up();
    }

    // Tries again where there was no room.
    #[inline(never)]
    fn write_later(&mut self, from: &[u8]) -> io::Result<usize>
        ensures { IfOk result (λ count. count ≤ length from.now) }
    {
        for _ in 2..MOST_CALLS {
            match self.stream.write(from) {
                Err(error) if error.kind() == ErrorKind::WouldBlock => {}
                answer => return answer,
            }
        }
        self.stream.write(from)
    }
}

impl Read for Caller {
    /// Where no byte came in time, one who waits at the same entrance is told that all places are taken, if they are.
    fn read(&mut self, into: &mut [u8]) -> io::Result<usize> {
        if let Some(last_sync) = &self.last_sync {
            if !is_readable(&self.stream) {
                last_sync.wait();
            }
        }
        let read = self.stream.read(into);
        match (&read, &self.seat) {
            (Err(error), Some(seat)) if error.kind() == ErrorKind::WouldBlock => seat.turn_away(),
            _ => {}
        }
        read
    }
}

impl Write for Caller {
    #[inline(always)]
    fn write(&mut self, from: &[u8]) -> io::Result<usize> {
        match self.stream.write(from) {
            Err(error) if error.kind() == ErrorKind::WouldBlock => self.write_later(from),
            answer => answer,
        }
    }

    fn flush(&mut self) -> io::Result<()> {
        Ok(())
    }
}
