ghost use Rattle.std.specs.Prelude.{[], ◌≡◌, ◌≢◌};

use crate::TcpLink;
use crate::changes::Changes;
use crate::door_notes::DoorNotes;
use crate::entrance::Entrance;
use crate::error_lines::ErrorLines;
use crate::keepalive::FarEnd;
use crate::last_sync::LastSync;
use dxc_notes::Noted;
use dxc_outside::{Came, Listener};
use std::alloc::Global;
use std::io::{self, ErrorKind};
use std::net::SocketAddr;
use std::rt::Clock as SystemClock;
use std::sync::Wait;
use std::thread;
use std::time::Duration;

/// How long an accept that failed rests: a host without free descriptors may have some again.
const REST_MILLIS: u64 = 100;

/// A listener over TCP, which never says End. It tells standard error who comes, and where nobody can be let in; no clause tells of it. Where the
/// host is short of descriptors or memory, or a caller is gone before it was answered, it goes on after a rest; only what stays wrong of the
/// listening socket itself is a fault.
#[derive(Drop)]
pub struct TcpDoor<T> {
    alloc: Global,
    entrance: Entrance,
    system: T,
    changes: Changes,
    lines: ErrorLines,
    /// Of the place whose callers come in here, from 1 on.
    place: u64,
    /// Who calls here.
    far: FarEnd,
    /// Of a standby.
    last_sync: Option<LastSync>,
    faults: u64,
}

impl<T: SystemClock + Drop> TcpDoor<T> {
    /// What a link needs is taken as it is made.
    pub(crate) fn new(
        alloc: Global,
        entrance: Entrance,
        system: T,
        changes: Changes,
        lines: ErrorLines,
        far: FarEnd,
        last_sync: Option<LastSync>,
    ) -> TcpDoor<T>
        ensures { result.faults ≡ 0 }
    {
        let place = entrance.door();
        TcpDoor {
            alloc,
            entrance,
            system,
            changes,
            lines,
            place,
            far,
            last_sync,
            faults: 0,
        }
    }

    // None: nobody could be let in, and the next try may be better.
    fn answer(&self, is_told: &mut bool) -> io::Result<Option<TcpLink>> {
        match self.let_in() {
            Ok((link, address)) => {
                self.tell_caller(address);
                Ok(Some(link))
            }
            // Another door was faster, or a signal came.
            Err(error) if is_missed(&error) => Ok(None),
            Err(error) => {
                self.rest(&error, is_told);
                if stays(&error) { Err(error) } else { Ok(None) }
            }
        }
    }

    fn let_in(&self) -> io::Result<(TcpLink, SocketAddr)> {
        self.entrance.wait()?;
        let (stream, address) = self.entrance.accept()?;
        let seat = self.entrance.seat()?;
        let changes = self.changes.shared()?;
        let mut link = TcpLink::new(self.alloc, stream, Some(seat), self.far, changes)?;
        if let Some(last_sync) = &self.last_sync {
            link.keep_waits(last_sync.shared()?);
        }
        Ok((link, address))
    }

    // The next caller, however long that takes.
    fn next<R: Wait>(&self, rt: &R) -> io::Result<TcpLink> {
        let mut is_told = false;
        for _ in rt.forever() {
            if let Some(link) = self.answer(&mut is_told)? {
                return Ok(link);
            }
        }
        unreachable!()
    }

    fn tell_caller(&self, address: SocketAddr) {
        if let Ok(what) = format!(in self.alloc; "caller from {address}") {
            self.lines.tell_at(self.place, &what.as_str());
        }
    }

    // Standard error is told why, once for tries that fail one after another.
    fn rest(&self, error: &io::Error, is_told: &mut bool) {
        if !*is_told {
            *is_told = true;
            self.tell_short(error);
        }
        thread::sleep(&self.system, Duration::from_millis(REST_MILLIS));
    }

    fn tell_short(&self, error: &io::Error) {
        if let Ok(what) = format!(in self.alloc; "nobody can be let in: {error}") {
            self.lines.tell_at(self.place, &what.as_str());
        }
    }
}

fn is_missed(error: &io::Error) -> bool {
    matches!(error.kind(), ErrorKind::WouldBlock | ErrorKind::Interrupted)
}

// No accept of the socket will be better (accept(2)).
fn stays(error: &io::Error) -> bool {
    matches!(
        error.raw_os_error(),
        Some(libc::EBADF | libc::EINVAL | libc::ENOTSOCK)
    )
}

impl<T: SystemClock + Drop> Listener for TcpDoor<T> {
    ghost use Rattle.dxc_outside.specs.Callers.{IsAccept};
    ghost use Rattle.dxc_host.specs.TcpLinks.{tcp_door, tcp_state};

    type Link = TcpLink;

    ghost told = { ⊥ };

    ghost state = { λ d. tcp_door d };

    fn accept<R: Wait>(&mut self, rt: &R) -> Came<TcpLink>
        ensures accept { IsAccept ⊥ tcp_state (tcp_door self.old) (tcp_door self.new) result }
        ensures no_fault { result ≢ Came.Failed → self.new.faults ≡ self.old.faults }
    {
        match self.next(rt) {
            Ok(link) => Came::Link(link),
            Err(_) => {
                self.faults = self.faults.saturating_add(1);
                Came::Failed
            }
        }
    }
}

impl<T> Noted for TcpDoor<T> {
    type Notes = DoorNotes;

    fn notes(&self) -> DoorNotes {
        DoorNotes::new(self.place, self.lines.shared())
    }
}
