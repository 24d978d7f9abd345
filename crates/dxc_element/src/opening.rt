//! The opening of what the words name.
ghost use Rattle.std.specs.Prelude.{◌≡◌, ◌≢◌, ◌⊎◌, ◌≤◌, ◌∷◌, [], Some, IfOk, IsOk, ◌<◌, ℕ, List, MatchResult};
ghost use Rattle.dxc_causes.specs.Causes.{Rose};
ghost use Rattle.dxc_outside.specs.Asked.{AskedFor, shelf_named, journal_named};
ghost use Rattle.dxc_element.specs.Lenders.{lender};
ghost use Rattle.dxc_element.specs.Openings.{AreUsersStarted, HasShelf, IsKept, IsStarted, IsUnopened, LetGoOf, NoShelf, OpensController, OpensElement, StartFails, UsersStartFails, files_asked, named, sources, users_name as name_of_users, wanted};
ghost use Rattle.dxc_element.specs.Statuses.{status_of_fault, status_of_users_fault};

use dxc_args::{JournalBad, Status};
use dxc_causes::NoMemory;
use dxc_disk::Disk;
use dxc_leaving::LetGo;
use dxc_outside::{Gate, Name, Opened, Opener};
use fabric_words::{Fabric, WorkerSeat};
use journal_core::JournalWhy;
use shelf_file::{Shelf, ShelfFault, shelf_of};
use std::alloc::Global;
use std::sync::Arc;
use user_admin::{UserOpenFault, UserState};
use xc_core::{Core, OpenFault, State};

/// The names of a shelf file and a journal.
#[derive(Clone, Copy)]
pub struct Names<'a> {
    pub shelf: &'a str,
    pub journal: &'a str,
}

/// A controller that has started: its shelf, the fabric with a seat for each worker, and the state that the journal came to.
#[derive(Drop)]
pub struct Controller<D: Disk> {
    pub shelf: Arc<Shelf>,
    pub fabric: Arc<Fabric>,
    pub seats: Vec<WorkerSeat>,
    pub state: State<D>,
}

/// A controller, and the users who may log in.
#[derive(Drop)]
pub struct Element<D: Disk, U: Disk> {
    pub controller: Controller<D>,
    pub users: UserState<U>,
}

/// Opens the shelf file and the journal of these names, and starts the controller with so many workers on what the journal came
/// to; then the users' journal beside it. The gate is asked before each register write. Where the element doesn't start, what is left of it is let
/// go as it was handed back.
pub fn open<O: Opener + LetGo, G: Gate>(
    alloc: Global,
    opener: &mut O,
    names: Names<'_>,
    workers: u16,
    gate: &mut G,
) -> Result<Element<O::Journal, O::Journal>, Status>
    requires workers { (0 < workers) × (workers ≤ 8) }
    ensures opened { OpensElement (lender O.Opener O.Journal.Disk O.Peer.Link O.gone)
        (wanted (named names.entry.shelf.now names.entry.journal.now) workers)
        (sources (O.state opener.old) (O.journal_at opener.old) (G.stops gate.old))
        (sources (O.state opener.new) (O.journal_at opener.new) (G.stops gate.new)) result }
    ensures unstopped { MatchResult result (λ x. G.stops gate.new ≡ G.stops gate.old)
        (λ s. G.stops gate.old ≤ G.stops gate.new) }
    ensures later { (O.state opener.old).faults ≤ (O.state opener.new).faults }
    ensures asked { AskedFor (O.asked opener.old opener.new)
        (files_asked (named names.entry.shelf.now names.entry.journal.now)) (IsOk result) }
{
    let controller = open_controller(alloc, opener, names, workers, gate)?;
    match open_users(alloc, opener, names.journal, &controller.shelf) {
        Ok(users) => Ok(Element { controller, users }),
        Err(status) => {
            opener.let_go(controller);
            Err(status)
        }
    }
}

// The shelf file and the journal of these names, and the controller on what the journal came to.
fn open_controller<O: Opener + LetGo, G: Gate>(
    alloc: Global,
    opener: &mut O,
    names: Names<'_>,
    workers: u16,
    gate: &mut G,
) -> Result<Controller<O::Journal>, Status>
    requires workers { (0 < workers) × (workers ≤ 8) }
    ensures opened { OpensController (lender O.Opener O.Journal.Disk O.Peer.Link O.gone)
        (wanted (named names.entry.shelf.now names.entry.journal.now) workers)
        (sources (O.state opener.old) (O.journal_at opener.old) (G.stops gate.old))
        (sources (O.state opener.new) (O.journal_at opener.new) (G.stops gate.new)) result }
    ensures others { O.told → (n : List ℕ) → n ≢ names.entry.journal.now
        → O.journal_at opener.new n ≡ O.journal_at opener.old n }
    ensures unstopped { MatchResult result (λ x. G.stops gate.new ≡ G.stops gate.old)
        (λ s. G.stops gate.old ≤ G.stops gate.new) }
    ensures later { (O.state opener.old).faults ≤ (O.state opener.new).faults }
    ensures asked { AskedFor (O.asked opener.old opener.new)
        (shelf_named names.entry.shelf.now ∷ journal_named names.entry.journal.now ∷ [])
        (IsOk result) }
{
    let shelf = shelf_of_file(alloc, opener, names.shelf)?;
    match opener.journal(alloc, names.journal) {
        Opened::Open(disk) => start(alloc, opener, shelf, disk, workers, gate),
        Opened::Failed => Err(Status::CannotOpen),
        Opened::NoMemory => Err(Status::NoMemory),
    }
}

/// The shelf that the file of that name describes.
pub(crate) fn shelf_of_file<O: Opener>(
    alloc: Global,
    opener: &mut O,
    name: &str,
) -> Result<Shelf, Status>
    ensures shelf { MatchResult result (HasShelf O.told (O.state opener.old) name.now)
        (NoShelf O.told (O.state opener.old) (O.state opener.new) name.now) }
    ensures journals { O.told → (n : List ℕ)
        → O.journal_at opener.new n ≡ O.journal_at opener.old n }
    ensures later { (O.state opener.old).faults ≤ (O.state opener.new).faults }
    ensures asked { O.asked opener.old opener.new (shelf_named name.now ∷ []) }
{
    let mut file = Vec::new(alloc);
    match opener.shelf(alloc, name, &mut file) {
        Opened::Open(()) => match shelf_of(alloc, &file) {
            Ok(shelf) => Ok(shelf),
            Err(ShelfFault::NoMemory) => Err(Status::NoMemory),
            Err(fault) => Err(Status::BadShelf(fault)),
        },
        Opened::Failed => Err(Status::CannotOpen),
        Opened::NoMemory => Err(Status::NoMemory),
    }
}

/// The same as `start_on`. Where the controller doesn't start, what is left is let go.
pub(crate) fn start<O: LetGo, D: Disk + Drop, G: Gate>(
    alloc: Global,
    opener: &O,
    shelf: Shelf,
    disk: D,
    workers: u16,
    gate: &mut G,
) -> Result<Controller<D>, Status>
    requires workers { (0 < workers) × (workers ≤ 8) }
    ensures started { MatchResult result (IsStarted D.told D.state disk shelf workers)
        (LetGoOf O.gone status_of_fault
        (StartFails D.told D.state disk shelf (Rose (G.stops gate.old) (G.stops gate.new)))) }
    ensures unstopped { MatchResult result (λ x. G.stops gate.new ≡ G.stops gate.old)
        (λ s. G.stops gate.old ≤ G.stops gate.new) }
{
    match start_on(alloc, shelf, disk, workers, gate) {
        Ok(controller) => Ok(controller),
        Err(fault) => {
            let status = not_started(&fault);
            opener.let_go(fault);
            Err(status)
        }
    }
}

/// The controller on the shelf and on what the disk's journal came to, on a new fabric. Each fault hands the disk back.
pub(crate) fn start_on<D: Disk + Drop, G: Gate>(
    alloc: Global,
    shelf: Shelf,
    disk: D,
    workers: u16,
    gate: &mut G,
) -> Result<Controller<D>, OpenFault<D>>
    requires workers { (0 < workers) × (workers ≤ 8) }
    ensures started { MatchResult result (IsStarted D.told D.state disk shelf workers)
        (StartFails D.told D.state disk shelf (Rose (G.stops gate.old) (G.stops gate.new))) }
    ensures unstopped { MatchResult result (λ x. G.stops gate.new ≡ G.stops gate.old)
        (λ f. G.stops gate.old ≤ G.stops gate.new) }
{
    let Ok(shelf) = Arc::new(alloc, shelf) else {
        return Err(OpenFault::NoMemory(disk));
    };
    let Ok((fabric, mover, seats)) = Fabric::new(alloc, shelf.shape(), workers) else {
        return Err(OpenFault::NoMemory(disk));
    };
    let Ok(fabric) = Arc::new(alloc, fabric) else {
        return Err(OpenFault::NoMemory(disk));
    };
    match Core::open(alloc, &shelf, disk, mover, &fabric, gate) {
        Ok(state) => Ok(Controller {
            shelf,
            fabric,
            seats,
            state,
        }),
        Err(fault) => Err(fault),
    }
}

/// How the program ends where its controller didn't start.
pub(crate) fn not_started<D: Disk>(fault: &OpenFault<D>) -> Status
    ensures { result ≡ status_of_fault fault.now }
{
    match fault {
        OpenFault::Journal(fault) => match fault.why {
            JournalWhy::BadHeader(bytes) => Status::BadJournal(JournalBad::Header(bytes)),
            JournalWhy::Disk => Status::Disk,
        },
        OpenFault::BadRecord(number, _) => Status::BadJournal(JournalBad::Record(*number)),
        OpenFault::Disk(_) => Status::Disk,
        OpenFault::NoMemory(_) => Status::NoMemory,
        OpenFault::Stopped(_) => Status::Stopped,
    }
}

/// The name of the users' journal beside a journal of this name.
pub(crate) fn users_name(alloc: Global, journal: &str) -> Result<Name, NoMemory>
    ensures { IfOk result (λ n. n ≡ name_of_users journal.now) }
{
    let mut name = String::new(alloc);
    name.push_str(journal)?;
    name.push_str(".users")?;
    Ok(Name::of(name))
}

/// The users that the journal came to that stands beside a journal of this name.
pub(crate) fn open_users<O: Opener + LetGo>(
    alloc: Global,
    opener: &mut O,
    journal: &str,
    shelf: &Shelf,
) -> Result<UserState<O::Journal>, Status>
    ensures users { MatchResult result (λ x. (d : O.Journal)
        × (O.told → O.journal_at opener.old (name_of_users journal.now) ≡ Some d)
        × AreUsersStarted O.Journal.told O.Journal.state d shelf.now x)
        (λ status. (IsUnopened (O.state opener.old).faults (O.state opener.new).faults status
        × IsKept O.told (name_of_users journal.now) (O.journal_at opener.old)
        (O.journal_at opener.new))
        ⊎ ((d : O.Journal) × (O.told → O.journal_at opener.old (name_of_users journal.now) ≡ Some d)
        × LetGoOf O.gone status_of_users_fault
        (UsersStartFails O.Journal.told O.Journal.state d shelf.now) status)) }
    ensures later { (O.state opener.old).faults ≤ (O.state opener.new).faults }
    ensures asked { AskedFor (O.asked opener.old opener.new)
        (journal_named (name_of_users journal.now) ∷ []) (IsOk result) }
{
    let Ok(name) = users_name(alloc, journal) else {
        return Err(Status::NoMemory);
    };
    match opener.journal(alloc, name.text()) {
        Opened::Open(disk) => start_users(alloc, opener, shelf, disk),
        Opened::Failed => Err(Status::CannotOpen),
        Opened::NoMemory => Err(Status::NoMemory),
    }
}

/// The same as `start_users_on`. Where they aren't taken up, what is left is let go.
pub(crate) fn start_users<O: LetGo, D: Disk + Drop>(
    alloc: Global,
    opener: &O,
    shelf: &Shelf,
    disk: D,
) -> Result<UserState<D>, Status>
    ensures { MatchResult result (AreUsersStarted D.told D.state disk shelf.now)
        (LetGoOf O.gone status_of_users_fault (UsersStartFails D.told D.state disk shelf.now)) }
{
    match start_users_on(alloc, shelf, disk) {
        Ok(users) => Ok(users),
        Err(fault) => {
            let status = users_not_started(&fault);
            opener.let_go(fault);
            Err(status)
        }
    }
}

/// The users of the shelf after the changes that the disk's journal stands for. Each fault hands the disk back.
pub(crate) fn start_users_on<D: Disk + Drop>(
    alloc: Global,
    shelf: &Shelf,
    disk: D,
) -> Result<UserState<D>, UserOpenFault<D>>
    ensures { MatchResult result (AreUsersStarted D.told D.state disk shelf.now)
        (UsersStartFails D.told D.state disk shelf.now) }
{
    match UserState::open(alloc, shelf, disk) {
        Ok(users) => Ok(users),
        Err(fault) => Err(fault),
    }
}

/// How the program ends where its users weren't taken up.
pub(crate) fn users_not_started<D: Disk>(fault: &UserOpenFault<D>) -> Status
    ensures { result ≡ status_of_users_fault fault.now }
{
    match fault {
        UserOpenFault::Journal(fault) => match fault.why {
            JournalWhy::BadHeader(bytes) => Status::BadJournal(JournalBad::UsersHeader(bytes)),
            JournalWhy::Disk => Status::Disk,
        },
        UserOpenFault::BadRecord(number, _) => Status::BadJournal(JournalBad::UsersRecord(*number)),
        UserOpenFault::Disk(_) => Status::Disk,
        UserOpenFault::NoMemory(_) => Status::NoMemory,
    }
}
