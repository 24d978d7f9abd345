//! How an opener in memory is made, and given what it holds.
ghost use Rattle.std.specs.Prelude.{◌≡◌, []};

use super::MemOpener;
use crate::{MemClock, MemGate, MemLines, MemLink, MemListener, Name};
use dxc_disk::MemDisk;
use std::alloc::Global;
use std::collections::VecDeque;

impl MemOpener {
    /// It holds nothing yet.
    pub fn new(alloc: Global, failing: Vec<u64>) -> MemOpener
        ensures shelves { result.shelves.items ≡ [] }
        ensures journals { result.journals.items ≡ [] }
        ensures lines { result.lines.items ≡ [] }
        ensures listeners { result.listeners.items ≡ [] }
        ensures peers { result.peers.items ≡ [] }
        ensures clocks { result.clocks.items ≡ [] }
        ensures gates { result.gates.items ≡ [] }
        ensures failing { result.failing.items ≡ failing.items }
        ensures calls { result.calls ≡ 0 }
        ensures faults { result.faults ≡ 0 }
    {
        MemOpener {
            shelves: Vec::new(alloc),
            journals: Vec::new(alloc),
            lines: Vec::new(alloc),
            listeners: Vec::new(alloc),
            peers: Vec::new(alloc),
            clocks: VecDeque::new(alloc),
            gates: VecDeque::new(alloc),
            alloc,
            failing,
            calls: 0,
            faults: 0,
        }
    }

    /// It holds these shelf files and no other. Of two with one name it hands out the first.
    pub fn with_shelves(self, shelves: Vec<(Name, Vec<u8>)>) -> MemOpener
        ensures { result ≡ record self { shelves = shelves } }
    {
        MemOpener { shelves, ..self }
    }

    /// It holds these disks of journals and no other. Of two with one name it hands out the first, and then the second.
    pub fn with_journals(self, journals: Vec<(Name, MemDisk)>) -> MemOpener
        ensures { result ≡ record self { journals = journals } }
    {
        MemOpener { journals, ..self }
    }

    /// It holds these lines, by name and worker, and no other. Of two for one worker it hands out the first, and then the second.
    pub fn with_lines(self, lines: Vec<(Name, u16, MemLines)>) -> MemOpener
        ensures { result ≡ record self { lines = lines } }
    {
        MemOpener { lines, ..self }
    }

    /// It holds these listeners, by address, and no other. Of two at one address it hands out the first, and then the second.
    pub fn with_listeners(self, listeners: Vec<(Name, MemListener)>) -> MemOpener
        ensures { result ≡ record self { listeners = listeners } }
    {
        MemOpener { listeners, ..self }
    }

    /// It holds these links to a second controller, by address, and no other. Of two at one address it hands out the first, and then the
    /// second.
    pub fn with_peers(self, peers: Vec<(Name, MemLink)>) -> MemOpener
        ensures { result ≡ record self { peers = peers } }
    {
        MemOpener { peers, ..self }
    }

    /// It gives these clocks in turn.
    pub fn with_clocks(self, clocks: VecDeque<MemClock>) -> MemOpener
        ensures { result ≡ record self { clocks = clocks } }
    {
        MemOpener { clocks, ..self }
    }

    /// It gives these gates in turn.
    pub fn with_gates(self, gates: VecDeque<MemGate>) -> MemOpener
        ensures { result ≡ record self { gates = gates } }
    {
        MemOpener { gates, ..self }
    }
}
