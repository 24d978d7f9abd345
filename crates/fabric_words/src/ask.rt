//! What the mover's seat may do next, as the registers tell it.
ghost use Rattle.std.specs.Prelude.{◌≡◌, ◌≢◌, ◌<◌, ◌↔◌, IsTrue};
ghost use Rattle.dxc_num.specs.Dimensions.{IsPort, IsInside, module_of};
ghost use Rattle.dxc_num.specs.declared.port.Route.{Route};
ghost use Rattle.fabric_core.specs.declared.phase.Phase.TheVariants.{Rest};
ghost use Rattle.fabric_core.specs.Registers.{in_word, mid_word, port_at};
ghost use Rattle.fabric_core.specs.State.{leg_at as established_at};
ghost use Rattle.fabric_core.specs.Moving.{IsMiddle, IsEstablished, IsUnused, IsNew, CanSetIn, AllPassed};
ghost use Rattle.fabric_core.specs.Allowed.{MayMove};

use crate::fabric::Fabric;
use crate::mover::MoverSeat;
use crate::path::middle_of;
use dxc_num::{Leg, Middle, Port, Reg, Route, Shape};
use fabric_core::{CoreEvent, MOST_SWITCHES, Phase};

// The leg and the middle are of the shape.
fn is_inside(shape: Shape, leg: Leg, middle: Middle) -> bool
    ensures { IsTrue result ↔ (IsInside shape leg × IsMiddle shape middle) }
{
    let ports = shape.ports();
    leg.input.0 < ports && leg.output.0 < ports && middle.0 as u16 <= shape.slots()
}

// The port of a module and a slot.
fn port_of(shape: Shape, in_module: u16, slot: u16) -> Port
    requires { (in_module < shape.modules) × (slot < shape.slots) }
    ensures { result ≡ port_at shape in_module slot }
{
    Port(in_module * shape.slots() + slot)
}

impl MoverSeat {
    /// Whether the mover may take this step of its own, by loads alone. For a caller that can't prove it of its step.
    pub fn may(&mut self, fabric: &Fabric, event: CoreEvent) -> bool
        requires own { self.old.fabric ≡ fabric.now }
        ensures same { self.new ≡ self.old }
        ensures allowed { IsTrue result ↔ MayMove self.old.fabric.size self.old.mover event }
    {
        match (event, self.phase()) {
            (CoreEvent::SetIn { leg, to }, Phase::Rest) => self.may_set_in(fabric, leg, to),
            (CoreEvent::SetMid, Phase::InSet { .. }) => true,
            (CoreEvent::SwitchOut, Phase::MidSet { .. }) => self.switches() < MOST_SWITCHES,
            (CoreEvent::ClearOut(leg), Phase::Rest) => self.is_established(fabric, leg),
            (CoreEvent::ClearMid, Phase::MidSet { .. }) => true,
            (CoreEvent::ClearMid, Phase::Old { .. }) => self.all_passed(fabric),
            (CoreEvent::ClearIn, Phase::InSet { .. }) => true,
            (CoreEvent::ClearIn, Phase::Freed { .. }) => true,
            _ => false,
        }
    }

    /// The established leg of an output: the input that it has, and its middle.
    pub fn leg_at(&mut self, fabric: &Fabric, output: Port) -> Option<Route>
        requires own { self.old.fabric ≡ fabric.now }
        requires inside { IsPort self.old.fabric.size.shape output }
        ensures same { self.new ≡ self.old }
        ensures leg { result ≡ established_at self.old.mover output }
    {
        let shape = fabric.shape();
        let _ = self.phase();
        let out_word = self.load(fabric, Reg::Out(output));
        if out_word == 0 {
            return None;
        }
        let middle = middle_of(out_word);
        let mid_word = self.load(fabric, Reg::Mid(middle, shape.module_of(output)));
        let input_module = (mid_word - 1) as u16;
        let in_word = self.load(fabric, Reg::In(input_module, middle));
        let input = port_of(shape, input_module, (in_word - 1) as u16);
        Some(Route { input, middle })
    }

    fn may_set_in(&mut self, fabric: &Fabric, leg: Leg, to: Middle) -> bool
        requires own { self.old.fabric ≡ fabric.now }
        requires rests { self.old.mover.phase ≡ Rest }
        ensures same { self.new ≡ self.old }
        ensures allowed { IsTrue result ↔ CanSetIn self.old.fabric.size.shape self.old.mover leg
            to }
    {
        is_inside(fabric.shape(), leg, to)
            && self.is_free(fabric, leg, to)
            && (self.is_established(fabric, leg) || self.is_new(fabric, leg))
    }

    // The IN and MID words of the path are none.
    fn is_free(&mut self, fabric: &Fabric, leg: Leg, middle: Middle) -> bool
        requires own { self.old.fabric ≡ fabric.now }
        requires inside { IsInside self.old.fabric.size.shape leg
            × IsMiddle self.old.fabric.size.shape middle }
        ensures same { self.new ≡ self.old }
        ensures none { IsTrue result ↔ ((in_word self.old.fabric.size.shape self.old.mover.registers
            (module_of self.old.fabric.size.shape leg.input) middle ≡ 0)
            × (mid_word self.old.fabric.size.shape self.old.mover.registers middle
            (module_of self.old.fabric.size.shape leg.output) ≡ 0)) }
    {
        let shape = fabric.shape();
        self.load(fabric, Reg::In(shape.module_of(leg.input), middle)) == 0
            && self.load(fabric, Reg::Mid(middle, shape.module_of(leg.output))) == 0
    }

    fn is_established(&mut self, fabric: &Fabric, leg: Leg) -> bool
        requires own { self.old.fabric ≡ fabric.now }
        ensures same { self.new ≡ self.old }
        ensures established { IsTrue result ↔ ((w : Route) × IsEstablished self.old.mover leg w) }
    {
        let _ = self.phase();
        if leg.output.0 >= fabric.shape().ports() {
            return false;
        }
        match self.leg_at(fabric, leg.output) {
            Some(route) => route.input == leg.input,
            None => false,
        }
    }

    fn is_new(&mut self, fabric: &Fabric, leg: Leg) -> bool
        requires own { self.old.fabric ≡ fabric.now }
        requires inside { IsPort self.old.fabric.size.shape leg.output }
        ensures same { self.new ≡ self.old }
        ensures unused { IsTrue result ↔ IsNew self.old.mover leg }
    {
        let _ = self.phase();
        self.load(fabric, Reg::Out(leg.output)) == 0 && self.is_unused(fabric, leg.input)
    }

    fn is_unused(&mut self, fabric: &Fabric, input: Port) -> bool
        requires own { self.old.fabric ≡ fabric.now }
        ensures same { self.new ≡ self.old }
        ensures unused { IsTrue result ↔ IsUnused self.old.mover input }
    {
        let _ = self.phase();
        for output in 0..fabric.shape().ports() {
            let leg = Leg {
                input,
                output: Port(output),
            };
            if self.is_established(fabric, leg) {
                return false;
            }
        }
        true
    }

    fn all_passed(&self, fabric: &Fabric) -> bool
        requires { self.now.fabric ≡ fabric.now }
        ensures { IsTrue result ↔ AllPassed self.now.fabric.size self.now.mover }
    {
        for worker in 0..fabric.workers() {
            if !self.passed(worker) {
                return false;
            }
        }
        true
    }
}
