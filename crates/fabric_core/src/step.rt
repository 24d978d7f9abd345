ghost use Rattle.std.specs.Prelude.{◌≡◌, OnOk, OnErr};
ghost use Rattle.fabric_core.specs.Steps.{IsAllowed, Steps};
ghost use Rattle.fabric_core.specs.Allowed.{actor_of};

use crate::event::{Actor, CoreEvent};
use crate::state::CoreState;
use dxc_causes::NoMemory;

/// Takes one allowed step. After want of memory the state is as before.
pub fn core_step(state: &mut CoreState, event: CoreEvent) -> Result<(), NoMemory>
    requires { IsAllowed state.old event }
    ensures stepped { OnOk result (Steps state.old event state.new) }
    ensures kept { OnErr result (state.new ≡ state.old) }
{
    match event.actor() {
        Actor::Worker(worker) => state.work(worker, event),
        Actor::Looker(worker) => state.look(worker, event),
        Actor::Mover => state.turn(event),
    }
}

impl CoreState {
    // A worker's step.
    fn work(&mut self, worker: u16, event: CoreEvent) -> Result<(), NoMemory>
        requires taken { actor_of event ≡ Actor.Worker worker }
        requires allowed { IsAllowed self.old event }
        ensures stepped { OnOk result (Steps self.old event self.new) }
        ensures kept { OnErr result (self.new ≡ self.old) }
    {
        let size = self.size;
        self.workers[worker as usize].step(&self.mover, size, event)
    }

    // A look of the mover at a worker.
    fn look(&mut self, worker: u16, event: CoreEvent) -> Result<(), NoMemory>
        requires taken { actor_of event ≡ Actor.Looker worker }
        requires allowed { IsAllowed self.old event }
        ensures stepped { OnOk result (Steps self.old event self.new) }
        ensures kept { OnErr result (self.new ≡ self.old) }
    {
        let frame = self.workers[worker as usize].frame;
        self.mover.look(worker, frame)
    }

    // Another step of the mover.
    fn turn(&mut self, event: CoreEvent) -> Result<(), NoMemory>
        requires taken { actor_of event ≡ Actor.Mover }
        requires allowed { IsAllowed self.old event }
        ensures stepped { OnOk result (Steps self.old event self.new) }
        ensures kept { OnErr result (self.new ≡ self.old) }
    {
        let size = self.size;
        self.mover.step(size, event)
    }
}
