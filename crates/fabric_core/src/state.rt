ghost use Rattle.std.specs.Prelude.{◌≡◌, ◌<◌, ◌≤◌, ◌↔◌, IfOk, IsTrue};
ghost use mathlib.Core.Option.{some};
ghost use lib.ListN.{get_elem?};
ghost use Rattle.fabric_core.specs.declared.worker.Worker.{Worker};
ghost use Rattle.fabric_core.specs.State.{IsSize, start, new_workers as workers_from};
ghost use Rattle.fabric_core.specs.Steps.{IsAllowed, IsReached};
ghost use Rattle.fabric_core.specs.Allowed.{MayWork};

use crate::event::{Actor, CoreEvent};
use crate::mover::Mover;
use crate::size::Size;
use crate::worker::Worker;
use dxc_causes::NoMemory;
use dxc_num::Shape;
use std::alloc::Global;
use std::marker::Model;

/// A state of the fabric that some list of allowed events reaches from the start.
#[derive(Drop)]
pub struct CoreState {
    pub(crate) size: Size,
    pub(crate) mover: Mover,
    pub(crate) workers: Vec<Worker>,
}

impl Model for CoreState {
    ghost use Rattle.fabric_core.specs.State.{Core};
    ghost use Rattle.fabric_core.specs.Steps.{IsReached};

    ghost Value = { Core };

    ghost view = { λ s. record { size = s.size; mover = s.mover; workers = s.workers.items } };

    ghost invariant = { λ s. IsReached
        (record { size = s.size; mover = s.mover; workers = s.workers.items }) };
}

impl CoreState {
    /// The start: all words 0, nothing established, no worker in a frame.
    pub fn new(alloc: Global, shape: Shape, workers: u16) -> Result<CoreState, NoMemory>
        requires { (0 < workers) × (workers ≤ 8) }
        ensures { IfOk result (λ c. c ≡ start (record { shape = shape; workers = workers })) }
    {
        let mover = Mover::new(alloc, Size { shape, workers })?;
        Ok(CoreState {
            size: Size { shape, workers },
            mover,
            workers: new_workers(alloc, workers)?,
        })
    }

    /// How large the fabric is.
    pub fn size(&self) -> Size
        ensures value { result ≡ self.now.size }
        ensures reached { IsReached self.now }
    {
        self.size
    }

    /// What the mover alone changes.
    pub fn mover(&self) -> &Mover
        ensures { result.now ≡ self.now.mover }
    {
        &self.mover
    }

    /// What each worker alone changes, by number.
    pub fn workers(&self) -> &[Worker]
        ensures { result.now ≡ self.now.workers }
    {
        self.workers.as_slice()
    }

    /// Whether an event is allowed in this state.
    pub fn allows(&self, event: CoreEvent) -> bool
        ensures { IsTrue result ↔ IsAllowed self.now event }
    {
        match event.actor() {
            Actor::Worker(worker) => self.worker_may(worker, event),
            Actor::Looker(worker) => (worker as usize) < self.workers.len(),
            Actor::Mover => self.mover.may(self.size, event),
        }
    }

    // The worker of this number may take this step.
    fn worker_may(&self, worker: u16, event: CoreEvent) -> bool
        ensures { IsTrue result ↔ ((v : Worker) × (get_elem? self.now.workers worker ≡ some v)
            × MayWork self.now.size v event) }
    {
        match self.workers.get(worker as usize) {
            Some(part) => part.may(self.size, event),
            None => false,
        }
    }
}

// So many workers, numbered from 0, that have done nothing yet.
fn new_workers(alloc: Global, count: u16) -> Result<Vec<Worker>, NoMemory>
    ensures { IfOk result (λ v. v.items ≡ workers_from 0 count) }
{
    let mut workers = Vec::with_capacity(alloc, count as usize)?;
    for number in 0..count {
        workers.push_reserved(Worker::new(alloc, number));
    }
    Ok(workers)
}
