ghost use Rattle.std.specs.Prelude.{◌≡◌, ◌≢◌};
ghost use Rattle.dxc_outside.specs.Asked.{AskedFor};
ghost use Rattle.dxc_jobs.specs.Missing.{IsOfNoOpening};
ghost use Rattle.dxc_element.specs.Openings.{files_asked, named};
ghost use Rattle.craft_server.specs.Sites.{names_of};
ghost use Rattle.craft_server.specs.Stations.{OpensForScript};
ghost use Rattle.craft_server.specs.Statuses.{status_of};

use crate::world::Station;
use craft_session::places::lone_place;
use craft_session::{SessionEnd, serve_session};
use dxc_args::Status;
use dxc_element::{Controller, Element, Names, WORKERS, open};
use dxc_leaving::LetGo;
use dxc_outside::{Clock, Gate, Link, Opener};
use std::alloc::Global;
use std::sync::Wait;

/// Serves one session over the terminal, at the one place of a controller that is opened on these names. The place is let go as the
/// session left it.
pub(crate) fn run_script<O: Opener + LetGo, K: Link, C: Clock, G: Gate, R: Wait>(
    alloc: Global,
    opener: &mut O,
    names: Names<'_>,
    terminal: &mut K,
    clock: &mut C,
    gate: &mut G,
    rt: &R,
) -> Status
    ensures opens { OpensForScript ⟦<(O, K, C, G) as Station>⟧ (names_of names.entry)
        (opener, terminal, clock, gate) result }
    ensures asked { AskedFor (O.asked opener.old opener.new)
        (files_asked (named names.entry.shelf.now names.entry.journal.now)) (IsOfNoOpening result) }
    ensures hung_up { K.hung_up terminal.new ≡ K.hung_up terminal.old }
{
    let Element { controller, users } = match open(alloc, opener, names, WORKERS, gate) {
        Ok(element) => element,
        Err(status) => return status,
    };
    let Controller {
        shelf,
        fabric,
        seats: _,
        state,
    } = controller;
    let Ok(mut place) = lone_place(alloc, &shelf, &fabric, state, users) else {
        return Status::NoMemory;
    };
    let status = after_session(serve_session(&mut place, terminal, clock, gate, rt));
    opener.let_go(place);
    status
}

/// The status of a session that ended so.
pub(crate) fn after_session(end: SessionEnd) -> Status
    requires attended { end ≢ SessionEnd.Unattended }
    requires endless { end ≢ SessionEnd.Idle }
    requires alone { end ≢ SessionEnd.Cancelled }
    ensures { result ≡ status_of end }
{
    match end {
        SessionEnd::End => Status::Done,
        SessionEnd::ReadFault | SessionEnd::WriteFault => Status::Link,
        SessionEnd::Stopped => Status::Stopped,
        SessionEnd::Spent => Status::Spent,
        SessionEnd::Unattended => unreachable!(),
        SessionEnd::Idle => unreachable!(),
        SessionEnd::Cancelled => unreachable!(),
    }
}
