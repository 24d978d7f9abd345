//! What it opens.
ghost use Rattle.std.specs.Prelude.{◌≡◌, ◌≢◌, false};
ghost use Rattle.dxc_causes.specs.Causes.{HasCause};

use super::{HostOpener, append_file, bind, share, share_lines};
use crate::keepalive::FarEnd;
use crate::lines_files::{open_input, open_output};
use crate::{FileLines, HostClock, HostDisk, HostGate, PeerLink, TcpDoor};
use dxc_outside::{Opened, Opener};
use std::alloc::Global;
use std::fs::File;
use std::net::{Net, TcpListener, TcpStream};
use std::rt::{Clock as SystemClock, Files};

impl<
    T: Files<File = File>
        + Net<Listener = TcpListener, Stream = TcpStream>
        + SystemClock
        + Copy
        + Send
        + Drop
        + 'static,
> Opener for HostOpener<T> {
    ghost use Rattle.std.specs.Prelude.{None};
    ghost use Rattle.dxc_outside.specs.Openings.{Hands};
    ghost use Rattle.dxc_host.specs.HostDisks.{is_copied};
    ghost use Rattle.dxc_host.specs.Openers.{OpensJournal, Reads, StaysAside, host_opener};

    type Journal = HostDisk;

    type Lines = FileLines;

    type Listener = TcpDoor<T>;

    type Clock = HostClock;

    type Gate = HostGate;

    type Peer = PeerLink<T>;

    ghost told = { ⊥ };

    ghost state = { λ o. host_opener o };

    ghost journal_at = { λ _ _. None };

    ghost listener_at = { λ _ _. None };

    ghost asked = { λ _ _ _. Unit {0} };

    ghost unasked = { λ _. tt };

    ghost asked_on = { λ _ _ _ _ _ _ _. tt };

    ghost lines_for = { λ _ _ _. Unit {0} };

    ghost listener_for = { λ _ _. Unit {0} };

    fn shelf(&mut self, alloc: Global, name: &str, into: &mut Vec<u8>) -> Opened<()>
        ensures read { Reads self.old self.new result name.now (into.old.items, into.new.items) }
        ensures no_fault { result ≢ Opened.Failed → self.new.faults ≡ self.old.faults }
        ensures looks { self.new.only_looks ≡ self.old.only_looks }
    {
        match append_file(&self.system, name, into) {
            Ok(()) => Opened::Open(()),
            Err(error) => self.not_opened(alloc, name, &error),
        }
    }

    /// A file that isn't there is made. A journal has one owner: another that is opened while the first is held is a fault. Who only looks
    /// gets a copy.
    fn journal(&mut self, alloc: Global, name: &str) -> Opened<HostDisk>
        ensures opening { OpensJournal self.old self.new result name.now }
        ensures kind { (d : HostDisk) → result ≡ Opened.Open d
            → is_copied d.bytes ≡ self.old.only_looks }
        ensures no_fault { result ≢ Opened.Failed → self.new.faults ≡ self.old.faults }
        ensures looks { self.new.only_looks ≡ self.old.only_looks }
    {
        let opened = if self.only_looks {
            HostDisk::copy(alloc, &self.system, name)
        } else {
            HostDisk::open(alloc, &self.system, name)
        };
        match opened {
            Ok(disk) => Opened::Open(disk),
            Err(error) => self.not_opened(alloc, name, &error),
        }
    }

    /// The file is made beside its name, as NAME`.joining`, and takes the name with its first sync. A name whose file holds bytes already, but
    /// for what a copy leaves that was never whole, gets the disk of that file.
    fn copy(&mut self, alloc: Global, name: &str) -> Opened<HostDisk>
        ensures opening { OpensJournal self.old self.new result name.now }
        ensures kind { (d : HostDisk) → result ≡ Opened.Open d → is_copied d.bytes ≡ false }
        ensures no_fault { result ≢ Opened.Failed → self.new.faults ≡ self.old.faults }
        ensures looks { self.new.only_looks ≡ self.old.only_looks }
    {
        match self.stage(alloc, name) {
            Ok(disk) => Opened::Open(disk),
            Err(error) => self.not_opened(alloc, name, &error),
        }
    }

    /// Worker `w` of the name `L` reads `L.in` and writes `L.w.out`, which is made where it isn't there.
    fn lines(&mut self, alloc: Global, name: &str, worker: u16) -> Opened<FileLines>
        ensures aside { StaysAside self.old self.new }
        ensures cause { HasCause self.old.faults self.new.faults (result ≡ Opened.Failed) }
        ensures no_fault { result ≢ Opened.Failed → self.new.faults ≡ self.old.faults }
        ensures looks { self.new.only_looks ≡ self.old.only_looks }
    {
        let (Ok(from), Ok(to)) = (
            format!(in alloc; "{name}.in"),
            format!(in alloc; "{name}.{worker}.out"),
        ) else {
            return Opened::NoMemory;
        };
        let input = match open_input(&self.system, from.as_str()) {
            Ok(file) => file,
            Err(error) => return self.not_opened(alloc, from.as_str(), &error),
        };
        let output = match open_output(&self.system, to.as_str()) {
            Ok(file) => file,
            Err(error) => return self.not_opened(alloc, to.as_str(), &error),
        };
        let lines = share_lines(alloc, self.version, &mut self.lines);
        match FileLines::new(alloc, input, output, worker, lines) {
            Ok(lines) => Opened::Open(lines),
            Err(_) => Opened::NoMemory,
        }
    }

    fn listener(&mut self, alloc: Global, address: &str) -> Opened<TcpDoor<T>>
        ensures hands { ⊥ → Hands {J = TcpDoor T} result None None }
        ensures aside { StaysAside self.old self.new }
        ensures cause { HasCause self.old.faults self.new.faults (result ≡ Opened.Failed) }
        ensures no_fault { result ≢ Opened.Failed → self.new.faults ≡ self.old.faults }
        ensures looks { self.new.only_looks ≡ self.old.only_looks }
    {
        let Ok(changes) = share(alloc, &mut self.changes) else {
            return Opened::NoMemory;
        };
        let lines = share_lines(alloc, self.version, &mut self.lines);
        let standby = self
            .standby
            .as_ref()
            .and_then(|standby| standby.shared().ok());
        // Who has a copy to make is called by its primary.
        let (far, last_sync) = match &self.copied {
            Some(copied) => (FarEnd::Peer, copied.last_sync()),
            None => (FarEnd::Caller, None),
        };
        match bind(
            alloc,
            &self.system,
            &mut self.bound,
            address,
            &lines,
            standby,
        ) {
            Ok(entrance) => Opened::Open(TcpDoor::new(
                alloc,
                entrance,
                self.system,
                changes,
                lines,
                far,
                last_sync,
            )),
            Err(error) => self.not_opened(alloc, address, &error),
        }
    }

    /// Also where nobody answers there: the link calls again then. ADDRESS`.users` is where the users' journal is copied: at the port after ADDRESS's.
    fn peer(&mut self, alloc: Global, address: &str) -> Opened<PeerLink<T>>
        ensures aside { StaysAside self.old self.new }
        ensures cause { HasCause self.old.faults self.new.faults (result ≡ Opened.Failed) }
        ensures no_fault { result ≢ Opened.Failed → self.new.faults ≡ self.old.faults }
        ensures looks { self.new.only_looks ≡ self.old.only_looks }
    {
        let lines = share_lines(alloc, self.version, &mut self.lines);
        let opened = match (&self.standby, address.strip_suffix(".users")) {
            (Some(standby), Some(name)) => {
                PeerLink::of_users(alloc, self.system, name, lines, standby)
            }
            _ => PeerLink::new(alloc, self.system, address, lines),
        };
        match opened {
            Ok(link) => {
                self.standby = link.watch();
                Opened::Open(link)
            }
            Err(error) => self.not_opened(alloc, address, &error),
        }
    }

    fn clock(&mut self) -> HostClock {
        HostClock::new()
    }

    fn gate(&mut self) -> HostGate {
        let changes = match &self.changes {
            Some(changes) => changes.shared().ok(),
            None => None,
        };
        HostGate::new(changes)
    }
}
