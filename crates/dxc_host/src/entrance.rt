use crate::peer_watch::PeerWatch;
use libc::net::POLLIN;
use libc::types::pollfd;
use std::alloc::{AllocError, Global};
use std::io::{self, Read, Write};
use std::net::{Shutdown, SocketAddr, TcpListener, TcpStream};
use std::os::fd::AsRawFd;
use std::sync::Arc;
use std::sync::atomic::{AtomicU64, Ordering};

/// What a caller is told for whom there is no seat.
const FULL: &[u8] = b"dxc: all places are taken, call again later\r\n";

/// Who waits for callers looks so often whether the standby's connection is another one.
const LOOK_MILLIS: i32 = 2000;

/// So many bytes of what such a caller sent are read before it is let go: where some are left, TCP drops what it was told.
const MOST_SENT: usize = 4096;

/// A listening socket at an address, how many doors it has, and how many of these have no caller. Where the program has a standby, those who wait
/// here look after its connection too.
#[derive(Drop)]
struct Hall {
    listener: TcpListener,
    doors: AtomicU64,
    free: AtomicU64,
    standby: Option<PeerWatch>,
}

/// A way into the hall, for each door of an address.
#[derive(Drop)]
pub struct Entrance {
    hall: Arc<Hall>,
}

impl Entrance {
    /// Its accepts don't wait.
    pub(crate) fn new(
        alloc: Global,
        listener: TcpListener,
        standby: Option<PeerWatch>,
    ) -> io::Result<Entrance> {
        listener.set_nonblocking(true)?;
        let hall = Hall {
            listener,
            doors: AtomicU64::new(0),
            free: AtomicU64::new(0),
            standby,
        };
        let hall = Arc::new(alloc, hall)?;
        Ok(Entrance { hall })
    }

    /// The same one, for another holder.
    pub(crate) fn shared(&self) -> Result<Entrance, AllocError> {
        let hall = Arc::try_clone(&self.hall)?;
        Ok(Entrance { hall })
    }

    /// Makes one door more, which has no caller; its number, from 1 on.
    pub(crate) fn door(&self) -> u64 {
        self.free();
        let before = self.hall.doors.fetch_add(1, Ordering::SeqCst);
        before.saturating_add(1)
    }

    /// One door more has no caller.
    fn free(&self) {
        self.hall.free.fetch_add(1, Ordering::SeqCst);
    }

    /// Waits until someone calls, or the standby's connection ends; where there is a standby, for two seconds at most. Another one may be faster to
    /// answer.
    pub(crate) fn wait(&self) -> io::Result<()> {
        let listener = pollfd {
            fd: self.hall.listener.as_raw_fd(),
            events: POLLIN,
            revents: 0,
        };
        let Some(standby) = &self.hall.standby else {
            return poll(&mut [listener], -1);
        };
        let [(journal, journal_time), (users, users_time)] = standby.asked();
        let mut asked = [listener, journal, users];
        poll(&mut asked, LOOK_MILLIS)?;
        standby.answered(&asked[1], journal_time);
        standby.answered(&asked[2], users_time);
        Ok(())
    }

    /// Looks after the standby's connection without waiting.
    fn look(&self) {
        if let Some(standby) = &self.hall.standby {
            let [(journal, journal_time), (users, users_time)] = standby.asked();
            let mut asked = [journal, users];
            if poll(&mut asked, 0).is_ok() {
                standby.answered(&asked[0], journal_time);
                standby.answered(&asked[1], users_time);
            }
        }
    }

    /// The next caller, and its address. `WouldBlock` where nobody calls.
    pub(crate) fn accept(&self) -> io::Result<(TcpStream, SocketAddr)> {
        self.hall.listener.accept()
    }

    /// A seat for a caller, whose door isn't free until it is given back.
    pub(crate) fn seat(&self) -> Result<Seat, AllocError> {
        let hall = Arc::try_clone(&self.hall)?;
        self.hall.free.fetch_sub(1, Ordering::SeqCst);
        Ok(Seat {
            entrance: Entrance { hall },
        })
    }
}

/// The seat of a caller who came in.
pub(crate) struct Seat {
    entrance: Entrance,
}

impl Drop for Seat {
    fn drop(self) {
        let Seat { entrance } = self;
        entrance.free();
    }
}

impl Seat {
    /// Tells the next caller, if there is one, that all places are taken, and lets it go, and looks after the standby's connection; does nothing
    /// while a door has no caller, which waits for both.
    pub(crate) fn turn_away(&self) {
        if self.entrance.hall.free.load(Ordering::SeqCst) > 0 {
            return;
        }
        self.entrance.look();
        if let Ok((stream, _)) = self.entrance.accept() {
            let _ = tell_full(stream);
        }
    }
}

/// Whether a read of the stream wouldn't wait.
pub(crate) fn is_readable(stream: &TcpStream) -> bool {
    let mut asked = [pollfd {
        fd: stream.as_raw_fd(),
        events: POLLIN,
        revents: 0,
    }];
    poll(&mut asked, 0).is_ok() && asked[0].revents != 0
}

fn poll(asked: &mut [pollfd], millis: i32) -> io::Result<()> {
    if libc::net::poll(asked, millis) < 0 {
        return Err(io::Error::from_raw_os_error(os::errno()));
    }
    Ok(())
}

// Nobody is left who could be told of a fault.
fn tell_full(mut stream: TcpStream) -> io::Result<()> {
    stream.set_nonblocking(true)?;
    let _ = stream.write(FULL)?;
    stream.shutdown(Shutdown::Write)?;
    let mut sent = [0; MOST_SENT];
    let _ = stream.read(&mut sent)?;
    Ok(())
}
