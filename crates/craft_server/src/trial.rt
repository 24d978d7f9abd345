//! A trial: one session of the user of a new element, whose journals are in memory.
ghost use Rattle.std.specs.Prelude.{◌≡◌, IfOk};
ghost use Rattle.craft_server.specs.Trials.{IsTrialOn, IsTried, TriesOn, memory_told, trial_lent, trial_told};

use crate::script::after_session;
use craft_session::places::lone_place;
use craft_session::serve_session_of;
use dxc_args::Status;
use dxc_disk::Disk;
use dxc_element::{Controller, Element, memory_element};
use dxc_num::Shape;
use dxc_outside::{Clock, Gate, Link};
use shelf_file::trial_shelf;
use std::alloc::Global;
use std::sync::Wait;

// Serves one session over the terminal, at the one place of an element that was opened, whose user is logged in from the beginning.
fn trial_on<D: Disk + Drop, K: Link, C: Clock, G: Gate, R: Wait>(
    alloc: Global,
    opened: Result<Element<D, D>, Status>,
    terminal: &mut K,
    clock: &mut C,
    gate: &mut G,
    rt: &R,
) -> Status
    requires element { IfOk opened (IsTried D.told D.state) }
    ensures ran { TriesOn (trial_told D.told D.state K.told C.told K.begun) opened
        (trial_lent (K.state terminal.old) (C.coming clock.old) (G.stops gate.old))
        (trial_lent (K.state terminal.new) (C.coming clock.new) (G.stops gate.new)) result }
    ensures hung_up { K.hung_up terminal.new ≡ K.hung_up terminal.old }
{
    let Element { controller, users } = match opened {
        Ok(element) => element,
        Err(status) => return status,
    };
    let Controller {
        shelf,
        fabric,
        seats: _,
        state,
    } = controller;
    let user = shelf.logged_in(0);
    let Ok(mut place) = lone_place(alloc, &shelf, &fabric, state, users) else {
        return Status::NoMemory;
    };
    after_session(serve_session_of(&mut place, user, terminal, clock, gate, rt))
}

/// Serves one session over the terminal, on a new element of the shape, whose one user is logged in from the beginning.
pub(crate) fn run_trial<K: Link, C: Clock, G: Gate, R: Wait>(
    alloc: Global,
    shape: Shape,
    terminal: &mut K,
    clock: &mut C,
    gate: &mut G,
    rt: &R,
) -> Status
    ensures ran { IsTrialOn (memory_told K.told C.told K.begun) shape
        (trial_lent (K.state terminal.old) (C.coming clock.old) (G.stops gate.old))
        (trial_lent (K.state terminal.new) (C.coming clock.new) (G.stops gate.new)) result }
    ensures hung_up { K.hung_up terminal.new ≡ K.hung_up terminal.old }
{
    let Ok(shelf) = trial_shelf(alloc, shape) else {
        return Status::NoMemory;
    };
    let opened = memory_element(alloc, shelf, gate);
    trial_on(alloc, opened, terminal, clock, gate, rt)
}
