//! A controller whose journals a standby has copies of.
ghost use Rattle.std.specs.Prelude.{◌≡◌, ◌≢◌, ◌≤◌, ◌<◌, ◌∷◌, [], ℕ, IsOk, List, MatchResult};
ghost use Rattle.dxc_outside.specs.Asked.{AskedFor, shelf_named, journal_named, peer_named};
ghost use Rattle.dxc_element.specs.Lenders.{lender};
ghost use Rattle.dxc_element.specs.Openings.{named, sources, users_name as name_of_users, wanted};
ghost use Rattle.dxc_element.specs.Peers.{MirrorsController, MirrorsElement, TookMirror, TookUsers, mirror_asked, users_peer};

use crate::opening::{Controller, Element, Names, shelf_of_file, start, start_users, users_name};
use dxc_args::Status;
use dxc_leaving::LetGo;
use dxc_outside::{Gate, Opened, Opener};
use shelf_file::Shelf;
use standby_link::MirrorDisk;
use std::alloc::Global;
use user_admin::UserState;

/// The disk of an opener's journals, mirrored to a peer.
pub type Mirror<O> = MirrorDisk<<O as Opener>::Journal, <O as Opener>::Peer>;

/// Opens the shelf file and the journal of these names, joins the standby at the peer, and starts the controller with so many
/// workers on what the journal came to; then the users' journal beside it, over a link of its own to the peer's copy of it. Where a joining is lost that
/// journal is served alone until somebody stands by anew. Where the element doesn't start, what is left of it is let go as it was handed back.
pub fn open_mirrored<O: Opener + LetGo, G: Gate>(
    alloc: Global,
    opener: &mut O,
    names: Names<'_>,
    peer: &str,
    workers: u16,
    gate: &mut G,
) -> Result<Element<Mirror<O>, Mirror<O>>, Status>
    requires workers { (0 < workers) × (workers ≤ 8) }
    ensures opened { MirrorsElement (lender O.Opener O.Journal.Disk O.Peer.Link O.gone)
        (wanted (named names.entry.shelf.now names.entry.journal.now) workers)
        (sources (O.state opener.old) (O.journal_at opener.old) (G.stops gate.old))
        (sources (O.state opener.new) (O.journal_at opener.new) (G.stops gate.new)) result }
    ensures unstopped { MatchResult result (λ x. G.stops gate.new ≡ G.stops gate.old)
        (λ s. G.stops gate.old ≤ G.stops gate.new) }
    ensures later { (O.state opener.old).faults ≤ (O.state opener.new).faults }
    ensures asked { AskedFor (O.asked opener.old opener.new)
        (mirror_asked (named names.entry.shelf.now names.entry.journal.now) peer.now)
        (IsOk result) }
{
    let controller = mirrored_controller(alloc, opener, names, peer, workers, gate)?;
    match mirrored_users(alloc, opener, names.journal, peer, &controller.shelf) {
        Ok(users) => Ok(Element { controller, users }),
        Err(status) => {
            opener.let_go(controller);
            Err(status)
        }
    }
}

// The shelf file, the journal and the peer of these names, and the controller on what the mirrored journal came to.
fn mirrored_controller<O: Opener + LetGo, G: Gate>(
    alloc: Global,
    opener: &mut O,
    names: Names<'_>,
    peer: &str,
    workers: u16,
    gate: &mut G,
) -> Result<Controller<Mirror<O>>, Status>
    requires workers { (0 < workers) × (workers ≤ 8) }
    ensures opened { MirrorsController (lender O.Opener O.Journal.Disk O.Peer.Link O.gone)
        (wanted (named names.entry.shelf.now names.entry.journal.now) workers)
        (sources (O.state opener.old) (O.journal_at opener.old) (G.stops gate.old))
        (sources (O.state opener.new) (O.journal_at opener.new) (G.stops gate.new)) result }
    ensures others { O.told → (n : List ℕ) → n ≢ names.entry.journal.now
        → O.journal_at opener.new n ≡ O.journal_at opener.old n }
    ensures unstopped { MatchResult result (λ x. G.stops gate.new ≡ G.stops gate.old)
        (λ s. G.stops gate.old ≤ G.stops gate.new) }
    ensures later { (O.state opener.old).faults ≤ (O.state opener.new).faults }
    ensures asked { AskedFor (O.asked opener.old opener.new) (shelf_named names.entry.shelf.now
        ∷ journal_named names.entry.journal.now ∷ peer_named peer.now ∷ []) (IsOk result) }
{
    let shelf = shelf_of_file(alloc, opener, names.shelf)?;
    let mirror = mirror_of(alloc, opener, names.journal, peer)?;
    start(alloc, opener, shelf, mirror, workers, gate)
}

// The users that the journal came to that stands beside a journal of this name, mirrored over a link of its own to the peer's copy of it.
fn mirrored_users<O: Opener + LetGo>(
    alloc: Global,
    opener: &mut O,
    journal: &str,
    peer: &str,
    shelf: &Shelf,
) -> Result<UserState<Mirror<O>>, Status>
    ensures users { TookUsers (lender O.Opener O.Journal.Disk O.Peer.Link O.gone) opener
        journal.now shelf.now result }
    ensures later { (O.state opener.old).faults ≤ (O.state opener.new).faults }
    ensures asked { AskedFor (O.asked opener.old opener.new) (journal_named
        (name_of_users journal.now) ∷ peer_named (users_peer peer.now) ∷ []) (IsOk result) }
{
    let Ok(name) = users_name(alloc, journal) else {
        return Err(Status::NoMemory);
    };
    let Ok(address) = users_name(alloc, peer) else {
        return Err(Status::NoMemory);
    };
    let mirror = mirror_of(alloc, opener, name.text(), address.text())?;
    start_users(alloc, opener, shelf, mirror)
}

// The disk of the journal of that name, mirrored to the standby at the peer. Where the peer can't be called the disk is let go as it was handed out.
fn mirror_of<O: Opener + LetGo>(
    alloc: Global,
    opener: &mut O,
    journal: &str,
    peer: &str,
) -> Result<Mirror<O>, Status>
    ensures mirror { TookMirror (lender O.Opener O.Journal.Disk O.Peer.Link O.gone) opener
        journal.now result }
    ensures others { O.told → (n : List ℕ) → n ≢ journal.now
        → O.journal_at opener.new n ≡ O.journal_at opener.old n }
    ensures later { (O.state opener.old).faults ≤ (O.state opener.new).faults }
    ensures asked { AskedFor (O.asked opener.old opener.new)
        (journal_named journal.now ∷ peer_named peer.now ∷ []) (IsOk result) }
{
    let disk = match opener.journal(alloc, journal) {
        Opened::Open(disk) => disk,
        Opened::Failed => return Err(Status::CannotOpen),
        Opened::NoMemory => return Err(Status::NoMemory),
    };
    match opener.peer(alloc, peer) {
        Opened::Open(link) => Ok(MirrorDisk::join(alloc, disk, link)),
        Opened::Failed => {
            opener.let_go(disk);
            Err(Status::CannotOpen)
        }
        Opened::NoMemory => {
            opener.let_go(disk);
            Err(Status::NoMemory)
        }
    }
}
