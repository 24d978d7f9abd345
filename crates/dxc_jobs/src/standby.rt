//! A second controller's copy of a journal.
ghost use Rattle.std.specs.Prelude.{◌≡◌, ◌∷◌, []};
ghost use Rattle.dxc_outside.specs.Asked.{AskedFor, copy_named, listener_named};
ghost use Rattle.dxc_jobs.specs.Missing.{IsOfNoOpening};
ghost use Rattle.dxc_jobs.specs.Offices.{doorway, office};
ghost use Rattle.dxc_jobs.specs.Standbys.{IsFirst, MetAt, MetBy, RanOver, ServedAt, StoodBy, status_of_standby, status_of_stood, stood_asked};
ghost use Rattle.standby_link.specs.Serves.{IsPrompt};

use crate::stood::Stood;
use dxc_args::Status;
use dxc_disk::Disk;
use dxc_leaving::LetGo;
use dxc_outside::{Came, Link, Listener, Opened, Opener};
use standby_link::{StandbyEnd, serve_standby};
use std::alloc::Global;
use std::sync::Wait;

/// So many accepts in a row may not fail.
pub const ACCEPT_FAILURES: u8 = 16;

/// Makes on the journal of that name, which is to be new, what a primary sends over a link that comes at the address. A caller that goes
/// and has left nothing in the copy is passed over; after any other nobody is let in. What is left is let go.
pub fn run_standby<O: Opener + LetGo, R: Wait>(
    alloc: Global,
    opener: &mut O,
    journal: &str,
    address: &str,
    rt: &R,
) -> Status
    ensures stands_by { StoodBy
        (office O.Opener O.Journal.Disk O.Listener.Listener O.Listener.Link.Link)
        O.gone opener (journal.now, address.now) result }
    ensures asked { AskedFor (O.asked opener.old opener.new)
        (copy_named journal.now ∷ listener_named address.now ∷ []) (IsOfNoOpening result) }
{
    let stood = meet_primary(alloc, opener, journal, address, rt);
    let status = stood.status();
    opener.let_go(stood);
    status
}

// The same, and what is left of it.
fn meet_primary<O: Opener, R: Wait>(
    alloc: Global,
    opener: &mut O,
    journal: &str,
    address: &str,
    rt: &R,
) -> Stood<O::Journal, O::Listener, <O::Listener as Listener>::Link>
    ensures stands { MetBy
        (office O.Opener O.Journal.Disk O.Listener.Listener O.Listener.Link.Link)
        opener journal.now address.now result }
    ensures asked { O.asked opener.old opener.new (stood_asked journal.now address.now result) }
{
    let mut disk = match opener.copy(alloc, journal) {
        Opened::Open(disk) => disk,
        Opened::Failed => return Stood::NoJournal(Status::CannotOpen),
        Opened::NoMemory => return Stood::NoJournal(Status::NoMemory),
    };
    let mut listener = match opener.listener(alloc, address) {
        Opened::Open(listener) => listener,
        Opened::Failed => return Stood::NoListener(disk, Status::CannotOpen),
        Opened::NoMemory => return Stood::NoListener(disk, Status::NoMemory),
    };
    match primary_of(&mut listener, &mut disk, rt) {
        Met::Served(link, end) => Stood::Served(disk, listener, link, end),
        Met::Nobody => Stood::Unmet(disk, listener),
        Met::NoneHeard => Stood::Unheard(disk, listener),
    }
}

impl<D, L, K> Stood<D, L, K> {
    // The status that the program ends with.
    fn status(&self) -> Status
        ensures { result ≡ status_of_stood self.now }
    {
        match self {
            Stood::NoJournal(status) | Stood::NoListener(_, status) => *status,
            Stood::Unmet(_, _) => Status::Done,
            Stood::Unheard(_, _) => Status::CannotOpen,
            Stood::Served(_, _, _, end) => after_standby(*end),
        }
    }
}

fn after_standby(end: StandbyEnd) -> Status
    ensures { result ≡ status_of_standby end }
{
    match end {
        StandbyEnd::End => Status::Done,
        StandbyEnd::ReadFault | StandbyEnd::WriteFault => Status::Link,
        StandbyEnd::DiskFault => Status::Disk,
        StandbyEnd::BadMessage => Status::BadMessage,
        StandbyEnd::NotEmpty => Status::NotEmpty,
        StandbyEnd::Spent => Status::Spent,
    }
}

// What came of the callers.
enum Met<K> {
    /// One was served, after whom nobody else is let in.
    Served(K, StandbyEnd),
    /// The listener said End.
    Nobody,
    /// So many accepts in a row failed as may not.
    NoneHeard,
}

// Serves callers one after another, up to the first that leaves something in the copy, or sends what no primary does. Who leaves nothing, as a
// port scan, is passed over.
fn primary_of<L: Listener, D: Disk, R: Wait>(listener: &mut L, disk: &mut D, rt: &R) -> Met<L::Link>
    ensures { MetAt (doorway D.Disk L.Listener L.Link.Link) disk listener result }
{
    for _ in rt.forever() {
        match first_link(listener, rt) {
            Came::Link(mut link) => match serve_caller(&mut link, disk) {
                Some(end) => return Met::Served(link, end),
                None => {}
            },
            Came::End => return Met::Nobody,
            Came::Failed => return Met::NoneHeard,
        }
    }
    unreachable!()
}

// Serves a caller on the disk to its end. None: it left the disk empty, so that another one may be let in.
fn serve_caller<K: Link, D: Disk>(link: &mut K, disk: &mut D) -> Option<StandbyEnd>
    ensures { ServedAt D.Disk K.Link link disk result }
{
    let end = stand_by(link, disk);
    match end {
        StandbyEnd::End | StandbyEnd::ReadFault | StandbyEnd::WriteFault => match disk.length() {
            Ok(length) => { if length == 0 { None } else { Some(end) } }
            Err(_) => Some(end),
        },
        StandbyEnd::BadMessage | StandbyEnd::DiskFault | StandbyEnd::NotEmpty | StandbyEnd::Spent =>
            Some(end),
    }
}

// Serves the link on the disk to its end.
fn stand_by<K: Link, D: Disk>(link: &mut K, disk: &mut D) -> StandbyEnd
    ensures ran { RanOver D.Disk K.Link link disk result }
    ensures prompt { IsPrompt K.begun K.told (K.state link.old) (K.state link.new) }
    ensures hung_up { K.hung_up link.new ≡ K.hung_up link.old }
{
    serve_standby(link, disk)
}

// The first link that comes, unless the listener says End before, or so many accepts in a row fail as may not.
fn first_link<L: Listener, R: Wait>(listener: &mut L, rt: &R) -> Came<L::Link>
    ensures { IsFirst L.told L.Link.state (L.state listener.old) (L.state listener.new) result }
{
    for _ in 0..ACCEPT_FAILURES {
        match listener.accept(rt) {
            Came::Link(link) => return Came::Link(link),
            Came::End => return Came::End,
            Came::Failed => {}
        }
    }
    Came::Failed
}
