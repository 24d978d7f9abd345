//! The workers of an element.
ghost use Rattle.std.specs.Prelude.{◌≡◌, ◌<◌, ◌+◌, IfOk, ℕ, length};
ghost use Rattle.std.specs.Arc.{arc_value};
ghost use Rattle.fabric_core.specs.State.{new_worker};
ghost use Rattle.fabric_core.specs.Working.{CanBegin};
ghost use Rattle.fabric_words.specs.New.{AreNew};
ghost use Rattle.fabric_words.specs.Seats.{FabricId};

use crate::carriage::Carriage;
use anyhow::{Context, Result, ensure};
use fabric_words::{Fabric, WorkerSeat};
use std::alloc::Global;
use std::sync::Arc;
use worked_common::IDLE;

/// The workers of an element.
#[derive(Drop)]
pub struct Crew {
    workers: Vec<Carriage>,
    // What their outputs come to.
    frame: Vec<u8>,
}

impl Crew {
    /// The workers of these seats.
    pub fn of(alloc: Global, fabric: &Arc<Fabric>, mut seats: Vec<WorkerSeat>) -> Result<Crew>
        requires { AreNew (arc_value fabric.now) 0 seats.items }
    {
        let mut crew = Crew {
            workers: Vec::new(alloc),
            frame: Vec::from_elem(alloc, IDLE, fabric.shape().ports() as usize)?,
        };
        for number in 0..seats.len() {
            let worker = next_worker(alloc, number, fabric, &mut seats)?;
            crew.workers.push(worker)?;
        }
        Ok(crew)
    }

    /// Has each worker carry a frame.
    pub fn carry(&mut self) {
        self.frame.fill(IDLE);
        for worker in self.workers.iter_mut() {
            worker.carry();
            add_output(worker.output(), &mut self.frame);
        }
    }

    /// The last frame, by all workers.
    pub fn frame(&self) -> &[u8] {
        &self.frame
    }

    /// What that worker wrote of the last frame.
    pub fn frame_by(&self, worker: usize) -> Option<&[u8]> {
        Some(self.workers.get(worker)?.output())
    }
}

// Adds the bytes that a worker wrote of its own outputs.
fn add_output(output: &[u8], frame: &mut [u8]) {
    for (all, byte) in frame.iter_mut().zip(output.iter()) {
        if *byte != IDLE {
            *all = *byte;
        }
    }
}

// The worker of that number, for the first of the seats that are left.
fn next_worker(
    alloc: Global,
    number: usize,
    fabric: &Arc<Fabric>,
    seats: &mut Vec<WorkerSeat>,
) -> Result<Carriage>
    requires some { 0 < length seats.old.items }
    requires new { AreNew (arc_value fabric.now) number seats.old.items }
    ensures fewer { length seats.new.items + 1 ≡ length seats.old.items }
    ensures new { AreNew (arc_value fabric.now) (number + 1) seats.new.items }
{
    let _ = number;
    let seat = next_seat(seats);
    let fabric = Arc::try_clone(fabric)?;
    Carriage::new(alloc, fabric, seat).ok().context("no memory")
}

// The seat with the lowest number that is left.
fn next_seat(seats: &mut Vec<WorkerSeat>) -> WorkerSeat
    requires some { 0 < length seats.old.items }
    ensures seat { (f : FabricId) → (n : ℕ) → AreNew f n seats.old.items
        → (result.reader ≡ record { fabric = f; worker = new_worker n })
        × AreNew f (n + 1) seats.new.items }
    ensures fewer { length seats.new.items + 1 ≡ length seats.old.items }
{
    seats.remove(0)
}

/// Has the first of two workers carry a frame, and gives the seat of the second.
pub fn second_seat(
    alloc: Global,
    fabric: &Arc<Fabric>,
    mut seats: Vec<WorkerSeat>,
) -> Result<WorkerSeat>
    requires { AreNew (arc_value fabric.now) 0 seats.items }
    ensures own { IfOk result (λ s. s.reader.fabric ≡ arc_value fabric.now) }
    ensures rests { IfOk result (λ s. CanBegin s.reader.worker) }
{
    ensure!(seats.len() == 2, "two workers are wanted");
    let mut early = next_worker(alloc, 0, fabric, &mut seats)?;
    early.carry();
    Ok(next_seat(&mut seats))
}
