ghost use Rattle.std.specs.Prelude.{◌≡◌, ◌≢◌, ◌≤◌, ◌++◌, true, false, List, ℕ, OnOk, OnErr, IfOk, length};
ghost use Rattle.dxc_host.specs.HostDisks.{is_copied};
ghost use Rattle.dxc_causes.specs.Causes.{HasCause};
ghost use Rattle.dxc_outside.specs.Openings.{IsClosed, most_shelf_bytes};

use crate::changes::Changes;
use crate::copied::Copied;
use crate::entrance::Entrance;
use crate::error_lines::ErrorLines;
use crate::last_sync::LastSync;
use crate::peer_watch::PeerWatch;
use crate::staged_file::{StagedFile, is_free};
use crate::{HostDisk, Refusal};
use dxc_disk::FileDisk;
use dxc_notes::Word;
use dxc_outside::{Opened, most_shelf_bytes};
use std::alloc::{AllocError, Global};
use std::fs::File;
use std::io::{self, ErrorKind, Read};
use std::net::{Net, TcpListener, TcpStream};
use std::rt::Files;

mod opens;

/// Opens files of the operating system by their paths, and TCP listeners and connections by their addresses. It tells nothing of what they hold.
#[derive(Drop)]
pub struct HostOpener<T> {
    system: T,
    bound: Vec<(String, Entrance)>,
    /// What its listeners and its gates share, from the first listener on.
    changes: Option<Changes>,
    /// What all that it hands out tells standard error by, from the first of these on.
    lines: Option<ErrorLines>,
    /// The program's, if it was told.
    version: Option<Word>,
    faults: u64,
    /// Journals are copied, and no byte of a file is changed.
    only_looks: bool,
    /// What couldn't be opened last.
    refusal: Option<Refusal>,
    /// The copy of a journal that was to be made last.
    copied: Option<Copied>,
    /// The connections to a standby, for those who wait for callers.
    standby: Option<PeerWatch>,
}

impl<T: Drop> HostOpener<T> {
    /// The listeners that it binds are kept after what `bound` holds.
    pub fn new(system: T, bound: Vec<(String, Entrance)>) -> HostOpener<T>
        ensures faults { result.faults ≡ 0 }
        ensures looks { result.only_looks ≡ false }
    {
        HostOpener {
            system,
            bound,
            changes: None,
            lines: None,
            version: None,
            faults: 0,
            only_looks: false,
            refusal: None,
            copied: None,
            standby: None,
        }
    }

    /// From here on a journal that it opens is a copy of the file, which isn't locked, made or changed.
    pub fn only_look(&mut self)
        ensures faults { self.new.faults ≡ self.old.faults }
        ensures looks { self.new.only_looks ≡ true }
    {
        self.only_looks = true;
    }

    /// The version of the program is this, as far as ten bytes go.
    pub fn is_version(&mut self, version: &str)
        ensures faults { self.new.faults ≡ self.old.faults }
        ensures looks { self.new.only_looks ≡ self.old.only_looks }
    {
        let text = version.as_bytes();
        self.version = Some(Word::of(&text[..text.len().min(10)]));
    }

    /// What couldn't be opened last, and why; None where all could be, or where memory to hold that was wanting.
    pub fn refusal(&self) -> Option<&Refusal> {
        self.refusal.as_ref()
    }

    /// The copy of a journal that was to be made last, where one was.
    pub fn copied(&self) -> Option<&Copied> {
        self.copied.as_ref()
    }

    // The answer for an error in opening what has that name: memory was wanting, or else a fault, which is counted.
    fn not_opened<X>(&mut self, alloc: Global, name: &str, error: &io::Error) -> Opened<X>
        ensures closed { IsClosed result }
        ensures cause { HasCause self.old.faults self.new.faults (result ≡ Opened.Failed) }
        ensures no_fault { result ≢ Opened.Failed → self.new.faults ≡ self.old.faults }
        ensures looks { self.new.only_looks ≡ self.old.only_looks }
    {
        if error.kind() == ErrorKind::OutOfMemory {
            return Opened::NoMemory;
        }
        self.faults = self.faults.saturating_add(1);
        self.refusal = Refusal::of(alloc, name, error);
        Opened::Failed
    }
}

impl<T: Files<File = File>> HostOpener<T> {
    // The disk of a copy, which is kept in mind where it is begun.
    fn stage(&mut self, alloc: Global, name: &str) -> io::Result<HostDisk>
        ensures kind { IfOk result (λ disk. is_copied disk.bytes ≡ false) }
        ensures faults { self.new.faults ≡ self.old.faults }
        ensures looks { self.new.only_looks ≡ self.old.only_looks }
    {
        let mut place = FileDisk::open(alloc, &self.system, name)?;
        if !is_free(&mut place)? {
            return HostDisk::of_file(place);
        }
        let last_sync = LastSync::new(alloc)?;
        let shared = last_sync.shared()?;
        let lines = share_lines(alloc, self.version, &mut self.lines);
        let staged = StagedFile::new(alloc, &self.system, name, place, shared, lines)?;
        self.copied = Some(Copied::new(alloc, name, last_sync)?);
        Ok(HostDisk::staged(staged))
    }
}

// Appends the bytes of a file as far as they are read, or nothing.
fn append_file<T: Files<File = File>>(files: &T, path: &str, into: &mut Vec<u8>) -> io::Result<()>
    ensures ok { OnOk result ((part : List ℕ) × (into.new.items ≡ into.old.items ++ part)
        × (length part ≤ most_shelf_bytes)) }
    ensures err { OnErr result (into.new.items ≡ into.old.items) }
{
    let start = into.len();
    let most = most_shelf_bytes();
    let file = File::open(files, path)?;
    if let Err(error) = file.take(most as u64).read_to_end(into) {
        into.truncate(start);
        return Err(error);
    }
    into.truncate(start.saturating_add(most));
    Ok(())
}

// The entrance at the address: the one that was bound there before, or else a new one, of which standard error is told. Who waits at it looks after
// the standby.
fn bind<T: Net<Listener = TcpListener, Stream = TcpStream>>(
    alloc: Global,
    net: &T,
    bound: &mut Vec<(String, Entrance)>,
    address: &str,
    lines: &ErrorLines,
    standby: Option<PeerWatch>,
) -> io::Result<Entrance> {
    if let Some((_, entrance)) = bound.iter().find(|(held, _)| held.as_str() == address) {
        return Ok(entrance.shared()?);
    }
    let listener = TcpListener::bind(net, address)?;
    let at = listener.local_addr()?;
    let entrance = Entrance::new(alloc, listener, standby)?;
    let held = entrance.shared()?;
    bound.push((address.to_string(alloc)?, held))?;
    if let Some(hall) = lines.hall() {
        hall.open();
    }
    if let Ok(what) = format!(in alloc; "listening at {at}") {
        lines.tell(&what.as_str());
    }
    Ok(entrance)
}

// The count, for one more holder.
fn share(alloc: Global, changes: &mut Option<Changes>) -> Result<Changes, AllocError> {
    if let Some(changes) = changes {
        return changes.shared();
    }
    let made = Changes::new(alloc)?;
    let shared = made.shared()?;
    *changes = Some(made);
    Ok(shared)
}

// Standard error's, for one more holder.
fn share_lines(alloc: Global, version: Option<Word>, lines: &mut Option<ErrorLines>) -> ErrorLines {
    if let Some(lines) = lines {
        return lines.shared();
    }
    let made = ErrorLines::new(alloc, version);
    let shared = made.shared();
    *lines = Some(made);
    shared
}
