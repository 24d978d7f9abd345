ghost use Rattle.std.specs.Prelude.{None, ◌≢◌};

use crate::clock::standing;
use crate::gate::CuedGate;
use crate::lines::WatchedLines;
use crate::link::CueLink;
use crate::listener::OneCaller;
use dxc_disk::MemDisk;
use dxc_leaving::LetGo;
use dxc_outside::{MemClock, MemLink, Opened, Opener};
use std::alloc::Global;
use worked_common::read_part;

/// Hands out what a row has, whatever the name, of lists the last one first.
#[derive(Drop)]
pub struct SessionsOpener {
    alloc: Global,
    shelf: Vec<u8>,
    /// The disks of the journal and of the users' journal.
    pub disks: Vec<MemDisk>,
    pub lines: Vec<WatchedLines>,
    /// The callers of the sessions. Nobody calls at the listeners that are left.
    pub callers: Vec<CueLink>,
    /// The gates of the workers, and then of the sessions.
    pub gates: Vec<CuedGate>,
}

impl SessionsOpener {
    /// The shelf file alone.
    pub fn new(alloc: Global, shelf: Vec<u8>) -> SessionsOpener {
        SessionsOpener {
            alloc,
            shelf,
            disks: Vec::new(alloc),
            lines: Vec::new(alloc),
            callers: Vec::new(alloc),
            gates: Vec::new(alloc),
        }
    }
}

fn opened<X: Drop>(held: Option<X>) -> Opened<X>
    ensures { result ≢ Opened.Failed }
{
    match held {
        Some(held) => Opened::Open(held),
        None => Opened::NoMemory,
    }
}

impl Opener for SessionsOpener {
    type Journal = MemDisk;

    type Lines = WatchedLines;

    type Listener = OneCaller;

    type Clock = MemClock;

    type Gate = CuedGate;

    type Peer = MemLink;

    ghost told = { ⊥ };

    ghost state = { λ _. record { shelf_at = λ _. None; faults = 0 } };

    ghost journal_at = { λ _ _. None };

    ghost listener_at = { λ _ _. None };

    ghost asked = { λ _ _ _. Unit {0} };

    ghost unasked = { λ _. tt };

    ghost asked_on = { λ _ _ _ _ _ _ _. tt };

    ghost lines_for = { λ _ _ _. Unit {0} };

    ghost listener_for = { λ _ _. Unit {0} };

    fn shelf(&mut self, _alloc: Global, _name: &str, into: &mut Vec<u8>) -> Opened<()> {
        match into.extend_from_slice(read_part(&self.shelf)) {
            Ok(()) => Opened::Open(()),
            Err(_) => Opened::NoMemory,
        }
    }

    fn journal(&mut self, _alloc: Global, _name: &str) -> Opened<MemDisk> {
        opened(self.disks.pop())
    }

    fn copy(&mut self, alloc: Global, name: &str) -> Opened<MemDisk> {
        self.journal(alloc, name)
    }

    fn lines(&mut self, _alloc: Global, _name: &str, _worker: u16) -> Opened<WatchedLines> {
        opened(self.lines.pop())
    }

    fn listener(&mut self, _alloc: Global, _address: &str) -> Opened<OneCaller> {
        Opened::Open(OneCaller::new(self.alloc, self.callers.pop()))
    }

    fn peer(&mut self, _alloc: Global, _address: &str) -> Opened<MemLink> {
        Opened::NoMemory
    }

    fn clock(&mut self) -> MemClock {
        standing(self.alloc)
    }

    fn gate(&mut self) -> CuedGate {
        self.gates.pop().unwrap_or(CuedGate::new(None))
    }
}

impl LetGo for SessionsOpener {
    ghost gone = { λ _. Unit {0} };

    fn let_go<T: Drop>(&self, _left: T) {}
}
