//! A job for each frame worker, on its lines.
ghost use Rattle.std.specs.Prelude.{◌≡◌, ◌∷◌, [], IfOk, IsOk, length, vec_len};
ghost use Rattle.std.specs.Arc.{arc_value};
ghost use Rattle.dxc_outside.specs.Asked.{AskedFor, asked_each, lines_named};
ghost use Rattle.fabric_core.specs.State.{new_worker};
ghost use Rattle.fabric_words.specs.New.{AreNew};
ghost use Rattle.dxc_jobs.specs.Handed.{AreJobsOf, IsJobOf};
ghost use Rattle.dxc_jobs.specs.Missing.{IsMade};

use crate::frames::FrameJob;
use dxc_args::Status;
use dxc_outside::{Opened, Opener};
use fabric_words::{Fabric, WorkerSeat};
use std::alloc::Global;
use std::sync::Arc;

// The job of the seat, on its lines of that name.
fn frame_job<O: Opener>(
    alloc: Global,
    opener: &mut O,
    name: &str,
    number: u16,
    fabric: &Arc<Fabric>,
    seat: WorkerSeat,
) -> Result<FrameJob<O::Lines, O::Gate>, Status>
    requires { seat.reader ≡ record { fabric = arc_value fabric.now; worker = new_worker number } }
    ensures job { IfOk result
        (λ job. IsJobOf O.lines_for (arc_value fabric.now) name.now number job) }
    ensures made { IsMade (O.state opener.old).faults (O.state opener.new).faults result }
    ensures asked { O.asked opener.old opener.new (lines_named name.now number ∷ []) }
{
    let lines = match opener.lines(alloc, name, number) {
        Opened::Open(lines) => lines,
        Opened::Failed => return Err(Status::CannotOpen),
        Opened::NoMemory => return Err(Status::NoMemory),
    };
    let Ok(fabric) = Arc::try_clone(fabric) else {
        return Err(Status::NoMemory);
    };
    match FrameJob::new(alloc, fabric, seat, lines, opener.gate()) {
        Ok(job) => Ok(job),
        Err(_) => Err(Status::NoMemory),
    }
}

/// A job for each seat, in their order.
pub fn frame_jobs<O: Opener>(
    alloc: Global,
    opener: &mut O,
    name: &str,
    workers: u16,
    fabric: &Arc<Fabric>,
    mut seats: Vec<WorkerSeat>,
) -> Result<Vec<FrameJob<O::Lines, O::Gate>>, Status>
    requires seats { AreNew (arc_value fabric.now) 0 seats.items }
    requires each { length seats.items ≡ workers }
    ensures jobs { IfOk result (λ jobs. vec_len jobs ≡ workers) }
    // Each has the seat of its worker, and the lines that were handed out for that worker.
    ensures workers { IfOk result
        (λ jobs. AreJobsOf O.lines_for (arc_value fabric.now) name.now 0 jobs.items) }
    ensures made { IsMade (O.state opener.old).faults (O.state opener.new).faults result }
    ensures asked { AskedFor (O.asked opener.old opener.new)
        (asked_each (lines_named name.now) workers) (IsOk result) }
{
    let mut jobs = Vec::new(alloc);
    for number in 0..workers {
        let job = frame_job(alloc, opener, name, number, fabric, seats.remove(0))?;
        if jobs.push(job).is_err() {
            return Err(Status::NoMemory);
        }
    }
    Ok(jobs)
}
