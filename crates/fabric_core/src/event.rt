ghost use Rattle.std.specs.Prelude.{◌≡◌};
ghost use Rattle.fabric_core.specs.Allowed.{actor_of};

use dxc_num::{Leg, Middle, Port};

/// One atomic step on one word: of the worker whose number it names, or of the mover.
#[derive(Clone, Copy, PartialEq, Eq)]
pub enum CoreEvent {
    /// A worker begins a frame.
    Begin(u16),
    /// It loads the OUT word of an output of its modules.
    LoadOut { worker: u16, output: Port },
    /// It loads the MID word that the OUT word names.
    LoadMid(u16),
    /// It loads the IN word that both name, and carries that input.
    LoadIn(u16),
    /// It ends its frame.
    End(u16),
    /// The mover begins a path for a leg over a middle: its IN word.
    SetIn { leg: Leg, to: Middle },
    /// The MID word of the path that was begun.
    SetMid,
    /// The OUT word, which joins the leg or moves it: the leg is established on this path.
    SwitchOut,
    /// The OUT word of an established leg goes, which parts it.
    ClearOut(Leg),
    /// The mover looks at the frame word of a worker.
    Look(u16),
    /// The MID word of the path that was left, or of one that is half built, goes.
    ClearMid,
    /// And its IN word.
    ClearIn,
}

/// Who takes a step.
#[derive(Clone, Copy, PartialEq, Eq)]
pub enum Actor {
    /// The worker of this number.
    Worker(u16),
    /// The mover, who looks at this worker's frame word.
    Looker(u16),
    /// The mover.
    Mover,
}

impl CoreEvent {
    /// Who takes this step.
    pub fn actor(self) -> Actor
        ensures { result ≡ actor_of self }
    {
        match self {
            CoreEvent::Begin(worker) => Actor::Worker(worker),
            CoreEvent::LoadOut { worker, output: _ } => Actor::Worker(worker),
            CoreEvent::LoadMid(worker) => Actor::Worker(worker),
            CoreEvent::LoadIn(worker) => Actor::Worker(worker),
            CoreEvent::End(worker) => Actor::Worker(worker),
            CoreEvent::Look(worker) => Actor::Looker(worker),
            _ => Actor::Mover,
        }
    }
}
