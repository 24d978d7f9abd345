use crate::error_lines::ErrorLines;
use dxc_outside::Lost;
use libc::net::{POLLERR, POLLRDHUP};
use libc::types::pollfd;
use std::alloc::{AllocError, Global};
use std::net::{Shutdown, TcpStream};
use std::sync::atomic::{AtomicU64, Ordering};
use std::sync::{Arc, Mutex};

/// Which of the two journals a connection copies.
#[derive(Clone, Copy)]
pub(crate) enum CopyOf {
    Journal,
    Users,
}

/// A connection to a standby's copy: its descriptor, and which time it is that the standby is there, counted from 1; 0: there was none yet.
#[derive(Drop)]
struct Seen {
    descriptor: AtomicU64,
    time: AtomicU64,
    /// A second handle of it, by which it ends where the other one has ended.
    second: Mutex<Option<TcpStream>>,
}

impl Seen {
    fn new() -> Seen {
        Seen {
            descriptor: AtomicU64::new(0),
            time: AtomicU64::new(0),
            second: Mutex::new(None),
        }
    }

    // Who finds the lock taken leaves it: it is held for a moment alone, by who ends the connection or begins a new one.
    fn keep(&self, second: Option<TcpStream>) {
        if let Some(mut kept) = self.second.try_lock() {
            *kept = second;
        }
    }

    // Ends both directions, so that the standby knows, also where nobody sends it anything.
    fn end(&self) {
        if let Some(mut kept) = self.second.try_lock() {
            if let Some(stream) = kept.take() {
                let _ = stream.shutdown(Shutdown::Both);
            }
        }
    }
}

/// The connections for the journal and for the users' journal, and how often the standby was lost.
#[derive(Drop)]
struct Watched {
    journal: Seen,
    users: Seen,
    lost: AtomicU64,
}

/// The connections to a standby, as all who wait for callers see them: the first of them that meets the end of one tells standard error, so that it is told
/// at once, and not only where somebody changes something. It is told once, whoever meets it, and both connections have ended by it.
#[derive(Drop)]
pub(crate) struct PeerWatch {
    watched: Arc<Watched>,
    lines: ErrorLines,
}

impl PeerWatch {
    /// Of no connection yet.
    pub(crate) fn new(alloc: Global, lines: ErrorLines) -> Result<PeerWatch, AllocError> {
        let watched = Watched {
            journal: Seen::new(),
            users: Seen::new(),
            lost: AtomicU64::new(0),
        };
        let watched = Arc::new(alloc, watched)?;
        Ok(PeerWatch { watched, lines })
    }

    /// The same one, for another holder.
    pub(crate) fn shared(&self) -> Result<PeerWatch, AllocError> {
        let watched = Arc::try_clone(&self.watched)?;
        let lines = self.lines.shared();
        Ok(PeerWatch { watched, lines })
    }

    /// A new connection is there, of that descriptor, with a second handle of it; which time this is.
    pub(crate) fn begin(&self, of: CopyOf, descriptor: i32, second: Option<TcpStream>) -> u64 {
        let time = self.watched.lost.load(Ordering::SeqCst).saturating_add(1);
        let seen = self.seen(of);
        let descriptor = u64::from(descriptor.unsigned_abs());
        seen.descriptor.store(descriptor, Ordering::SeqCst);
        seen.time.store(time, Ordering::SeqCst);
        seen.keep(second);
        // Somebody may have met the other one's end meanwhile.
        if self.is_over(time) {
            seen.end();
        }
        time
    }

    /// Whether the standby of that time was lost, by this connection or by the other one.
    pub(crate) fn is_over(&self, time: u64) -> bool {
        self.watched.lost.load(Ordering::SeqCst) >= time
    }

    /// The time of the journal's connection, if it is there.
    pub(crate) fn journal_time(&self) -> Option<u64> {
        let time = self.watched.journal.time.load(Ordering::SeqCst);
        if self.is_over(time) { None } else { Some(time) }
    }

    /// What `poll` is asked, and of which times: for the ends of the connections. Of those of a time that is over, for nothing.
    // A descriptor may be another file's by the time that `poll` is called: that time was over then, and what is answered says nothing.
    pub(crate) fn asked(&self) -> [(pollfd, u64); 2] {
        [
            self.asked_of(&self.watched.journal),
            self.asked_of(&self.watched.users),
        ]
    }

    fn asked_of(&self, seen: &Seen) -> (pollfd, u64) {
        let time = seen.time.load(Ordering::SeqCst);
        let descriptor = seen.descriptor.load(Ordering::SeqCst);
        let asked = pollfd {
            fd: if self.is_over(time) {
                -1
            } else {
                i32::try_from(descriptor).unwrap_or(-1)
            },
            events: POLLRDHUP,
            revents: 0,
        };
        (asked, time)
    }

    /// Tells standard error where that is what `poll` answered of a connection.
    pub(crate) fn answered(&self, asked: &pollfd, time: u64) {
        if asked.revents & POLLERR != 0 {
            self.tell(time, Lost::Link);
        } else if asked.revents != 0 {
            self.tell(time, Lost::End);
        }
    }

    /// Tells standard error why the standby of that time is lost, and all places that it is, and ends both connections, where nobody did before.
    pub(crate) fn tell(&self, time: u64, why: Lost) {
        let before = time.saturating_sub(1);
        let lost = &self.watched.lost;
        if before < time
            && lost
                .compare_exchange(before, time, Ordering::SeqCst, Ordering::SeqCst)
                .is_ok()
        {
            if let Some(hall) = self.lines.hall() {
                hall.lose_standby();
            }
            self.watched.journal.end();
            self.watched.users.end();
            self.lines.tell(&lost_text(why));
        }
    }

    fn seen(&self, of: CopyOf) -> &Seen {
        match of {
            CopyOf::Journal => &self.watched.journal,
            CopyOf::Users => &self.watched.users,
        }
    }
}

fn lost_text(why: Lost) -> &'static str {
    match why {
        Lost::Link => "standby lost, the connection failed: serving alone",
        Lost::End => "standby lost, it hung up: serving alone",
        Lost::Silent => "standby lost, it was silent for 25 reads: serving alone",
        Lost::BadMessage => "standby lost, it sent what is no message: serving alone",
        Lost::Disk => "standby lost, the journal's disk failed: serving alone",
    }
}
