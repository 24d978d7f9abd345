//! The tests of when a step may be taken.
ghost use Rattle.std.specs.Prelude.{◌≡◌, ◌≢◌, ◌<◌, ◌⊎◌, ◌↔◌, length, None, IsTrue};
ghost use Rattle.dxc_num.specs.Dimensions.{IsPort, IsInside, module_of, leg};
ghost use Rattle.dxc_num.specs.declared.port.Route.{Route};
ghost use Rattle.fabric_core.specs.Registers.{in_word, mid_word};
ghost use Rattle.fabric_core.specs.State.{IsSize};
ghost use Rattle.fabric_core.specs.Moving.{IsMiddle, IsEstablished, IsUnused, IsNew, CanSetIn, AllPassed};
ghost use Rattle.fabric_core.specs.Allowed.{MayMove};
ghost use Rattle.fabric_core.specs.Laid.{IsLaidOut};

use crate::event::CoreEvent;
use crate::mover::Mover;
use crate::phase::Phase;
use crate::seen::Seen;
use crate::size::Size;
use dxc_num::{Leg, Middle, Port, Shape};

/// The most switches of OUT words that a mover makes.
pub const MOST_SWITCHES: u64 = 1 << 48;

// The leg and the middle are of the shape.
fn is_inside(shape: Shape, leg: Leg, middle: Middle) -> bool
    ensures { IsTrue result ↔ (IsInside shape leg × IsMiddle shape middle) }
{
    let ports = shape.ports();
    leg.input.0 < ports && leg.output.0 < ports && middle.0 as u16 <= shape.slots()
}

impl Mover {
    /// Whether the mover may take this step.
    pub(crate) fn may(&self, size: Size, event: CoreEvent) -> bool
        requires sized { IsSize size }
        requires laid { IsLaidOut size self.now }
        ensures { IsTrue result ↔ MayMove size self.now event }
    {
        match (event, self.phase) {
            (CoreEvent::SetIn { leg, to }, Phase::Rest) => self.may_set_in(size, leg, to),
            (CoreEvent::SetMid, Phase::InSet { .. }) => true,
            (CoreEvent::SwitchOut, Phase::MidSet { .. }) => (self.log.len() as u64) < MOST_SWITCHES,
            (CoreEvent::ClearOut(leg), Phase::Rest) => self.is_established(leg),
            (CoreEvent::ClearMid, Phase::MidSet { .. }) => true,
            (CoreEvent::ClearMid, Phase::Old { .. }) => self.all_passed(size),
            (CoreEvent::ClearIn, Phase::InSet { .. }) => true,
            (CoreEvent::ClearIn, Phase::Freed { .. }) => true,
            _ => false,
        }
    }

    fn may_set_in(&self, size: Size, leg: Leg, to: Middle) -> bool
        requires rests { self.now.phase ≡ Phase.Rest }
        requires sized { IsSize size }
        requires laid { IsLaidOut size self.now }
        ensures { IsTrue result ↔ CanSetIn size.shape self.now leg to }
    {
        is_inside(size.shape, leg, to)
            && self.is_free(size, leg, to)
            && (self.is_established(leg) || self.is_new(leg))
    }

    // The IN and MID words of the path are none.
    fn is_free(&self, size: Size, leg: Leg, middle: Middle) -> bool
        requires sized { IsSize size }
        requires laid { IsLaidOut size self.now }
        requires inside { IsInside size.shape leg × IsMiddle size.shape middle }
        ensures { IsTrue result ↔
            ((in_word size.shape self.now.registers (module_of size.shape leg.input) middle ≡ 0) ×
            (mid_word size.shape self.now.registers middle (module_of size.shape leg.output) ≡ 0)) }
    {
        let shape = size.shape;
        let input_module = shape.module_of(leg.input);
        let output_module = shape.module_of(leg.output);
        self.registers.in_at(shape, input_module, middle) == 0
            && self.registers.mid_at(shape, middle, output_module) == 0
    }

    fn is_established(&self, leg: Leg) -> bool
        ensures { IsTrue result ↔ ((w : Route) × IsEstablished self.now leg w) }
    {
        let output = leg.output.0 as usize;
        if output >= self.legs.len() {
            return false;
        }
        match self.legs.get(output) {
            Some(route) => route.input == leg.input,
            None => false,
        }
    }

    fn is_new(&self, leg: Leg) -> bool
        requires { (leg.output.0 < length self.now.legs)
            × (leg.output.0 < length self.now.registers.outs) }
        ensures { IsTrue result ↔ IsNew self.now leg }
    {
        self.legs.get(leg.output.0 as usize).is_none()
            && self.registers.out_at(leg.output) == 0
            && self.is_unused(leg.input)
    }

    fn is_unused(&self, input: Port) -> bool
        ensures { IsTrue result ↔ IsUnused self.now input }
    {
        for output in 0..self.legs.len() {
            if self.goes_from(output, input) {
                return false;
            }
        }
        true
    }

    // The leg at this output has this input.
    fn goes_from(&self, output: usize, input: Port) -> bool
        requires { output < length self.now.legs }
        ensures { IsTrue result ↔ ((w : Route) × IsEstablished self.now (leg input.0 output) w) }
    {
        match self.legs.get(output) {
            Some(route) => route.input == input,
            None => false,
        }
    }

    fn all_passed(&self, size: Size) -> bool
        requires { length self.now.looks ≡ size.workers }
        ensures { IsTrue result ↔ AllPassed size self.now }
    {
        for worker in 0..self.looks.len() {
            if !Seen::of(self.looks.at(worker)).passed {
                return false;
            }
        }
        true
    }
}
