ghost use Rattle.std.specs.Prelude.{◌≡◌};
ghost use Rattle.dxc_causes.specs.Causes.{HasCause};

use crate::disk::RowDisk;
use crate::lines::RowLines;
use crate::link::RowLink;
use crate::listener::RowListener;
use crate::noon::NOON;
use crate::shelf::read_part;
use dxc_leaving::LetGo;
use dxc_outside::{MemClock, MemGate, Opened, Opener};
use std::alloc::Global;

/// What a run of the program opens, of lists the last one first.
#[derive(Drop)]
pub struct Holding {
    /// The shelf file.
    pub shelf: Vec<u8>,
    pub journal: Option<RowDisk>,
    /// The disk of the users' journal.
    pub users: Option<RowDisk>,
    /// The lines of the workers.
    pub lines: Vec<RowLines>,
    /// The listeners of the places.
    pub listeners: Vec<RowListener>,
    /// The gates of the workers, and then of the places.
    pub gates: Vec<MemGate>,
    /// The link to a standby.
    pub peer: Option<RowLink>,
    /// The link to its copy of the users' journal.
    pub users_peer: Option<RowLink>,
}

impl Holding {
    /// The shelf file alone.
    pub fn new(alloc: Global, shelf: Vec<u8>) -> Holding {
        Holding {
            shelf,
            journal: None,
            users: None,
            lines: Vec::new(alloc),
            listeners: Vec::new(alloc),
            gates: Vec::new(alloc),
            peer: None,
            users_peer: None,
        }
    }
}

/// Hands out what it holds, whatever the name. Calls of those that may fail are numbered from 0; those of the numbers in `failing` fail, and one for
/// what it doesn't hold. It tells nothing of what it holds.
#[derive(Drop)]
pub struct RowOpener {
    holding: Holding,
    alloc: Global,
    failing: Vec<u64>,
    calls: u64,
    faults: u64,
}

impl RowOpener {
    pub fn new(alloc: Global, holding: Holding, failing: Vec<u64>) -> RowOpener {
        RowOpener {
            holding,
            alloc,
            failing,
            calls: 0,
            faults: 0,
        }
    }

    // Counts a call, and answers it with what there is, where it doesn't fail.
    fn opened<X: Drop>(&mut self, found: Option<X>) -> Opened<X>
        ensures cause { HasCause self.old.faults self.new.faults (result ≡ Opened.Failed) }
    {
        let fails = self.failing.contains(&self.calls);
        self.calls = self.calls.saturating_add(1);
        match found {
            Some(found) if !fails => Opened::Open(found),
            _ => {
                self.faults = self.faults.saturating_add(1);
                Opened::Failed
            }
        }
    }
}

impl Opener for RowOpener {
    ghost use Rattle.std.specs.Prelude.{None};

    type Journal = RowDisk;

    type Lines = RowLines;

    type Listener = RowListener;

    type Clock = MemClock;

    type Gate = MemGate;

    type Peer = RowLink;

    ghost told = { ⊥ };

    ghost state = { λ o. record { shelf_at = λ _. None; faults = o.faults } };

    ghost journal_at = { λ _ _. None };

    ghost listener_at = { λ _ _. None };

    ghost asked = { λ _ _ _. Unit {0} };

    ghost unasked = { λ _. tt };

    ghost asked_on = { λ _ _ _ _ _ _ _. tt };

    ghost lines_for = { λ _ _ _. Unit {0} };

    ghost listener_for = { λ _ _. Unit {0} };

    fn shelf(&mut self, _alloc: Global, _name: &str, into: &mut Vec<u8>) -> Opened<()> {
        match self.opened(Some(())) {
            Opened::Open(()) => {}
            Opened::Failed => return Opened::Failed,
            Opened::NoMemory => return Opened::NoMemory,
        }
        match into.extend_from_slice(read_part(&self.holding.shelf)) {
            Ok(()) => Opened::Open(()),
            Err(_) => Opened::NoMemory,
        }
    }

    fn journal(&mut self, _alloc: Global, name: &str) -> Opened<RowDisk> {
        let disk = if name.ends_with(".users") {
            self.holding.users.take()
        } else {
            self.holding.journal.take()
        };
        self.opened(disk)
    }

    fn copy(&mut self, alloc: Global, name: &str) -> Opened<RowDisk> {
        self.journal(alloc, name)
    }

    fn lines(&mut self, _alloc: Global, _name: &str, _worker: u16) -> Opened<RowLines> {
        let lines = self.holding.lines.pop();
        self.opened(lines)
    }

    fn listener(&mut self, _alloc: Global, _address: &str) -> Opened<RowListener> {
        let listener = self.holding.listeners.pop();
        self.opened(listener)
    }

    fn peer(&mut self, _alloc: Global, address: &str) -> Opened<RowLink> {
        let peer = if address.ends_with(".users") {
            self.holding.users_peer.take()
        } else {
            self.holding.peer.take()
        };
        self.opened(peer)
    }

    fn clock(&mut self) -> MemClock {
        let mut moments = Vec::new(self.alloc);
        let _ = moments.push(NOON);
        MemClock::new(moments)
    }

    fn gate(&mut self) -> MemGate {
        match self.holding.gates.pop() {
            Some(gate) => gate,
            None => MemGate::new(Vec::new(self.alloc)),
        }
    }
}

impl LetGo for RowOpener {
    ghost gone = { λ _. Unit {0} };

    fn let_go<T: Drop>(&self, _left: T) {}
}
