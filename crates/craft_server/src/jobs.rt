//! A job for each place, on its callers.
ghost use Rattle.std.specs.Prelude.{◌≡◌, ◌≤◌, ◌∷◌, [], ℕ, List, All, IfErr, IfOk, IsOk, map, vec_capacity, vec_len};
ghost use Rattle.dxc_leaving.specs.Values.{any_value};
ghost use Rattle.dxc_outside.specs.Asked.{AskedFor, asked_each, listener_named};
ghost use Rattle.dxc_jobs.specs.Missing.{IsMade};

use crate::sessions::SessionJob;
use craft_session::Place;
use dxc_args::Status;
use dxc_disk::Disk;
use dxc_leaving::LetGo;
use dxc_outside::{Opened, Opener};
use std::alloc::Global;

/// Where a place's callers come in, with the clock and the gate of its sessions.
#[derive(Drop)]
struct Door<L, C, G> {
    listener: L,
    clock: C,
    gate: G,
}

// A door at the address.
fn door_at<O: Opener>(
    alloc: Global,
    opener: &mut O,
    address: &str,
) -> Result<Door<O::Listener, O::Clock, O::Gate>, Status>
    ensures made { IsMade (O.state opener.old).faults (O.state opener.new).faults result }
    ensures asked { O.asked opener.old opener.new (listener_named address.now ∷ []) }
    ensures door { IfOk result (λ door. O.listener_for door.listener address.now) }
{
    match opener.listener(alloc, address) {
        Opened::Open(listener) => Ok(Door {
            listener,
            clock: opener.clock(),
            gate: opener.gate(),
        }),
        Opened::Failed => Err(Status::CannotOpen),
        Opened::NoMemory => Err(Status::NoMemory),
    }
}

// So many doors at the address.
fn doors_at<O: Opener>(
    alloc: Global,
    opener: &mut O,
    address: &str,
    count: usize,
) -> Result<Vec<Door<O::Listener, O::Clock, O::Gate>>, Status>
    ensures each { IfOk result (λ doors. vec_len doors ≡ count) }
    ensures listeners { IfOk result
        (λ doors. All (λ door. O.listener_for door.listener address.now) doors.items) }
    ensures made { IsMade (O.state opener.old).faults (O.state opener.new).faults result }
    ensures asked { AskedFor (O.asked opener.old opener.new)
        (asked_each (λ session. listener_named address.now) count) (IsOk result) }
{
    let mut doors = Vec::new(alloc);
    for _ in 0..count {
        let door = door_at(alloc, opener, address)?;
        if doors.push(door).is_err() {
            return Err(Status::NoMemory);
        }
    }
    Ok(doors)
}

// A job for each place, in their order, at a door each. There is room for them.
fn jobs_at<O: Opener, D: Disk + Drop, U: Disk + Drop>(
    mut doors: Vec<Door<O::Listener, O::Clock, O::Gate>>,
    places: Vec<Place<D, U>>,
    mut jobs: Vec<SessionJob<D, U, O::Listener, O::Clock, O::Gate>>,
) -> Vec<SessionJob<D, U, O::Listener, O::Clock, O::Gate>>
    requires none_yet { jobs.items ≡ [] }
    requires room { vec_len places ≤ vec_capacity jobs }
    requires as_many { vec_len doors ≡ vec_len places }
    ensures each { vec_len result ≡ vec_len places }
    ensures places { map (λ job. job.place) result.items ≡ places.items }
    ensures listeners { (name : List ℕ)
        → All (λ door. O.listener_for door.listener name) doors.items
        → All (λ job. O.listener_for job.listener name) result.items }
{
    for place in places {
        let Door {
            listener,
            clock,
            gate,
        } = doors.remove(0);
        jobs.push_reserved(SessionJob {
            place,
            listener,
            clock,
            gate,
        });
    }
    jobs
}

/// A job for each place, in their order. Where there is none the places are let go.
pub(crate) fn session_jobs<O: Opener + LetGo, D: Disk + Drop, U: Disk + Drop>(
    alloc: Global,
    opener: &mut O,
    address: &str,
    places: Vec<Place<D, U>>,
) -> Result<Vec<SessionJob<D, U, O::Listener, O::Clock, O::Gate>>, Status>
    ensures jobs { IfOk result (λ jobs. vec_len jobs ≡ vec_len places) }
    // Each has its place, and a listener that was handed out at the address.
    ensures places { IfOk result (λ jobs. map (λ job. job.place) jobs.items ≡ places.items) }
    ensures listeners { IfOk result
        (λ jobs. All (λ job. O.listener_for job.listener address.now) jobs.items) }
    ensures let_go { IfErr result (λ status. O.gone (any_value places)) }
    ensures made { IsMade (O.state opener.old).faults (O.state opener.new).faults result }
    ensures asked { AskedFor (O.asked opener.old opener.new)
        (asked_each (λ session. listener_named address.now) (vec_len places)) (IsOk result) }
{
    let doors = match doors_at(alloc, opener, address, places.len()) {
        Ok(doors) => doors,
        Err(status) => {
            opener.let_go(places);
            return Err(status);
        }
    };
    let Ok(jobs) = Vec::with_capacity(alloc, places.len()) else {
        opener.let_go(places);
        return Err(Status::NoMemory);
    };
    Ok(jobs_at::<O, D, U>(doors, places, jobs))
}
