//! Sessions and frame workers, side by side.
ghost use Rattle.std.specs.Prelude.{◌≡◌, ◌⊎◌, ◌+◌, ◌++◌, [], ℕ, length, vec_len, None, IsSome};
ghost use Rattle.std.specs.Arc.{arc_value};
ghost use Rattle.dxc_outside.specs.Asked.{AskedFor};
ghost use Rattle.dxc_outside.specs.Jobs.{any_jobs};
ghost use Rattle.fabric_words.specs.New.{AreNew};
ghost use Rattle.user_admin.specs.Openings.{Begins as UsersBegin};
ghost use Rattle.xc_core.specs.Openings.{Begins};
ghost use Rattle.xc_core.specs.States.{opening_of};
ghost use Rattle.craft_session.specs.Places.{IsAtOpening};
ghost use Rattle.dxc_jobs.specs.Framed.{RanFrames};
ghost use Rattle.dxc_jobs.specs.Leaves.{left_by};
ghost use Rattle.dxc_jobs.specs.Missing.{IsOfNoOpening};
ghost use Rattle.craft_server.specs.Askings.{serve_asked, site_asked};
ghost use Rattle.craft_server.specs.Entrances.{ends, entrance};
ghost use Rattle.craft_server.specs.Served.{RanAt};
ghost use Rattle.craft_server.specs.Serving.{AreLeft, AreLeftTo, IsServingBy, jobs_by, names_in, site_in, tally};
ghost use Rattle.craft_server.specs.Sites.{CameToOn, LeftPlacesOf, ServedAlone, ServedMirrored, outset, site_of};

use crate::jobs::session_jobs;
use crate::sessions::SessionJob;
use crate::world::Ground;
use craft_session::Timestamps;
use craft_session::places::open_places;
use dxc_args::{ServeLine, Status};
use dxc_disk::Disk;
use dxc_element::{Controller, Element, Names, open, open_mirrored};
use dxc_jobs::{FrameJob, frame_jobs, run_all};
use dxc_leaving::LetGo;
use dxc_notes::{Noted, PLACES};
use dxc_outside::{Gate, Lines, Listener, Opener, Spawner, Started};
use fabric_words::{Fabric, WorkerSeat};
use shelf_file::Shelf;
use std::alloc::Global;
use std::sync::{Arc, Wait};
use user_admin::UserState;
use xc_core::State;

/// Runs the workers' jobs and the sessions' jobs to their ends. What they leave is let go.
fn run_jobs<
    D: Disk + Send + Drop + 'static,
    U: Disk + Send + Drop + 'static,
    L: Listener + Noted + Send + Drop + 'static,
    C: Timestamps + Send + Drop + 'static,
    G: Gate + Send + Drop + 'static,
    N: Lines + Send + Drop + 'static,
    O: LetGo,
    P: Spawner,
    R: Wait,
>(
    alloc: Global,
    opener: &O,
    spawner: &mut P,
    workers: Vec<FrameJob<N, G>>,
    sessions: Vec<SessionJob<D, U, L, C, G>>,
    rt: &R,
) -> Status
where
    L::Link: Send + 'static,
    L::Notes: Send + 'static,
    ensures serving { (faults : ℕ) → (later : ℕ) → IsServingBy
        (vec_len workers + vec_len sessions) (tally faults (P.state spawner.old))
        (tally later (P.state spawner.new)) result }
    ensures handed { result ≡ Status.Done
        → P.handed spawner.old spawner.new (any_jobs workers.items ++ any_jobs sessions.items) }
    // Each worker has carried its frames in its seat, and each session's place is left as its sessions left it.
    ensures left { result ≡ Status.Done → AreLeft O.gone (left_by (RanFrames N.Lines G.Gate))
        (left_by (RanAt D.told L.Listener L.Link.Link C.Timestamps G.Gate)) workers.items
        sessions.items }
    ensures opened { (result ≡ Status.CannotOpen) ⊎ (result ≡ Status.NoMemory) → ⊥ }
    // So have those before the one whose start failed.
    ensures left_to { result ≡ Status.NoThread → AreLeftTo O.gone
        (left_by (RanFrames N.Lines G.Gate))
        (left_by (RanAt D.told L.Listener L.Link.Link C.Timestamps G.Gate)) workers.items
        sessions.items }
{
    let ran = run_all(alloc, spawner, workers, sessions, rt);
    let started = ran.started;
    opener.let_go(ran);
    match started {
        Started::Running => Status::Done,
        Started::Failed => Status::NoThread,
    }
}

/// The most sessions at a time.
const SESSIONS: u16 = PLACES as u16;

/// Where the sessions and the workers of `serve` run.
#[derive(Clone, Copy)]
struct Site<'a> {
    address: &'a str,
    lines: &'a str,
    workers: u16,
}

/// Opens the lines of each worker and a listener for each of 16 places at the state and the users, and runs their jobs to their ends. Where one of them
/// can't be opened the places are let go as they were made.
fn serve_on<O: Opener + LetGo, D: Disk + Send + Drop + 'static, P: Spawner, R: Wait>(
    alloc: Global,
    opener: &mut O,
    site: Site<'_>,
    shelf: &Arc<Shelf>,
    fabric: &Arc<Fabric>,
    seats: Vec<WorkerSeat>,
    state: State<D>,
    users: UserState<D>,
    spawner: &mut P,
    rt: &R,
) -> Status
where
    O::Clock: Timestamps,
    O::Listener: Noted,
    <O::Listener as Listener>::Link: Send + 'static,
    <O::Listener as Noted>::Notes: Send + 'static,
    requires seats { AreNew (arc_value fabric.now) 0 seats.items }
    requires each { length seats.items ≡ site.workers }
    requires sized { (arc_value fabric.now).size
        ≡ record { shape = (arc_value shelf.now).shape; workers = site.workers } }
    requires begins { Begins D.told D.state state }
    requires users_begin { UsersBegin D.told D.state users }
    requires opening { IsAtOpening (opening_of D.state state) (arc_value shelf.now)
        (arc_value fabric.now) }
    ensures serving { IsServingBy (site.entry.workers + 16)
        (tally (O.state opener.old).faults (P.state spawner.old))
        (tally (O.state opener.new).faults (P.state spawner.new)) result }
    ensures jobs { CameToOn D.state (jobs_by D.told O.Opener O.Lines.Lines
        (entrance O.Listener.Listener O.Listener.Link.Link O.Clock.Timestamps O.Gate.Gate)
        (ends O.gone (P.handed spawner.old spawner.new))) (site_of site.entry)
        (outset (arc_value shelf.now) state users) result }
    ensures closed { result ≡ Status.CannotOpen
        → LeftPlacesOf D.state O.gone (outset (arc_value shelf.now) state users) }
    // Memory may be wanting for the places too, before anything is asked for.
    ensures no_memory { result ≡ Status.NoMemory
        → LeftPlacesOf D.state O.gone (outset (arc_value shelf.now) state users)
        ⊎ O.asked opener.old opener.new [] }
    ensures asked { AskedFor (O.asked opener.old opener.new)
        (site_asked site.entry.lines.now site.entry.address.now site.entry.workers)
        (IsOfNoOpening result) }
{
    let Ok(places) = open_places(alloc, shelf, fabric, state, users, SESSIONS) else {
        return Status::NoMemory;
    };
    let workers = match frame_jobs(alloc, opener, site.lines, site.workers, fabric, seats) {
        Ok(jobs) => jobs,
        Err(status) => {
            opener.let_go(places);
            return status;
        }
    };
    let sessions = match session_jobs(alloc, opener, site.address, places) {
        Ok(jobs) => jobs,
        Err(status) => return status,
    };
    run_jobs(alloc, opener, spawner, workers, sessions, rt)
}

/// Serves the line's address with 16 sessions at a time, and its lines with its workers.
///
/// The controller is opened first, and the gate asked meanwhile; then the lines of each worker and a listener for each session.
/// The frame workers are started before the sessions. It ends when all of them have ended. Where the line has a peer, the standby there
/// is joined before the controller is opened.
pub fn serve_all<O: Opener + LetGo, G: Gate, P: Spawner, R: Wait>(
    alloc: Global,
    opener: &mut O,
    line: &ServeLine,
    gate: &mut G,
    spawner: &mut P,
    rt: &R,
) -> Status
where
    O::Clock: Timestamps,
    O::Listener: Noted,
    <O::Listener as Listener>::Link: Send + 'static,
    <O::Listener as Noted>::Notes: Send + 'static,
    ensures alone { line.now.peer ≡ None → ServedAlone ⟦<(O, G, P) as Ground>⟧
        (names_in line.now) (site_in line.now) (opener, gate, spawner) result }
    ensures mirrored { IsSome line.now.peer → ServedMirrored ⟦<(O, G, P) as Ground>⟧
        (names_in line.now) (site_in line.now) (opener, gate, spawner) result }
    ensures asked { AskedFor (O.asked opener.old opener.new) (serve_asked line.now)
        (IsOfNoOpening result) }
{
    let names = Names {
        shelf: line.shelf.text(),
        journal: line.journal.text(),
    };
    let site = Site {
        address: line.address.text(),
        lines: line.lines.text(),
        workers: line.workers.number(),
    };
    match &line.peer {
        None => match open(alloc, opener, names, site.workers, gate) {
            Ok(element) => {
                let Element { controller, users } = element;
                let Controller {
                    shelf,
                    fabric,
                    seats,
                    state,
                } = controller;
                serve_on(
                    alloc, opener, site, &shelf, &fabric, seats, state, users, spawner, rt,
                )
            }
            Err(status) => status,
        },
        Some(peer) => match open_mirrored(alloc, opener, names, peer.text(), site.workers, gate) {
            Ok(element) => {
                let Element { controller, users } = element;
                let Controller {
                    shelf,
                    fabric,
                    seats,
                    state,
                } = controller;
                serve_on(
                    alloc, opener, site, &shelf, &fabric, seats, state, users, spawner, rt,
                )
            }
            Err(status) => status,
        },
    }
}
