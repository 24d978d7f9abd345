ghost use Rattle.std.specs.Prelude.{◌≡◌, ◌<◌, ◌≤◌, ◌^◌, ◌++◌, ◌∷◌, [], length, Option, Some, None, IfOk, IfSome, IsSome, IsTrue, MatchResult, OnOk, OnErr};
ghost use Rattle.dxc_num.specs.Dimensions.{module_of};
ghost use Rattle.dxc_num.specs.declared.port.Leg.{Leg};
ghost use Rattle.dxc_num.specs.declared.port.Middle.{Middle};
ghost use Rattle.dxc_num.specs.declared.port.Route.{Route};
ghost use Rattle.dxc_num.specs.declared.register.WriteKind.TheVariants.{SwitchOut};
ghost use Rattle.fabric_core.specs.declared.phase.Phase.TheVariants.{InSet, MidSet, Old, Freed};
ghost use Rattle.fabric_core.specs.Registers.{in_cell, mid_cell};
ghost use Rattle.fabric_core.specs.State.{IsSize, leg_at, new_mover};
ghost use Rattle.fabric_core.specs.Working.{named_mid, named_in, HasMidCell, HasInCell};
ghost use Rattle.fabric_core.specs.Moving.{after_switch, looks_after, written_on, HasSwitch, CanClearOut, CanClearIn, in_set, mid_set, switched, out_cleared, looked, mid_cleared, in_cleared};
ghost use Rattle.fabric_core.specs.Steps.{Moves};
ghost use Rattle.fabric_core.specs.Allowed.{MayMove};
ghost use Rattle.fabric_core.specs.Owned.{HasIn, HasMid, IsMoverRuled};

use crate::event::CoreEvent;
use crate::phase::Phase;
use crate::registers::Registers;
use crate::row::Row;
use crate::size::Size;
use crate::worker::Hold;
use dxc_causes::NoMemory;
use dxc_num::{Leg, Middle, RegWrite, Route, Shape, WriteKind};
use std::alloc::Global;

/// The registers, and all else that the mover alone changes.
#[derive(Drop)]
pub struct Mover {
    pub registers: Registers,
    /// For each output its established leg.
    pub legs: Row<Option<Route>>,
    pub phase: Phase,
    /// Each register write that was made, in order.
    pub written: Row<RegWrite>,
    /// The leg of each switch. The first is number 1.
    pub log: Row<Leg>,
    /// For each worker the frame words that were looked at since the last step into Old.
    pub looks: Row<Row<u64>>,
}

impl Mover {
    /// A mover that has done nothing yet.
    pub fn new(alloc: Global, size: Size) -> Result<Mover, NoMemory>
        ensures { IfOk result (λ m. m ≡ new_mover size) }
    {
        Ok(Mover {
            registers: Registers::new(alloc, size.shape)?,
            legs: Row::filled(alloc, None, size.shape.ports() as usize)?,
            phase: Phase::Rest,
            written: Row::new(alloc),
            log: Row::new(alloc),
            looks: Row::empties(alloc, size.workers as usize)?,
        })
    }

    // The MID word that a hold names.
    pub(crate) fn mid_of(&self, shape: Shape, hold: Hold) -> u64
        requires { HasMidCell shape self.now.registers hold }
        ensures { result ≡ named_mid shape self.now.registers hold }
    {
        let Hold::Output {
            output,
            number: _,
            middle,
        } = hold
        else {
            unreachable!()
        };
        self.registers
            .mid_at(shape, middle, shape.module_of(output))
    }

    // The IN word that a hold names.
    pub(crate) fn in_of(&self, shape: Shape, hold: Hold) -> u64
        requires { HasInCell shape self.now.registers hold }
        ensures { result ≡ named_in shape self.now.registers hold }
    {
        let Hold::Path {
            output: _,
            number: _,
            middle,
            module,
        } = hold
        else {
            unreachable!()
        };
        self.registers.in_at(shape, module, middle)
    }

    // Notes a write. After want of memory the mover is as before.
    fn note(&mut self, kind: WriteKind, leg: Leg, middle: Middle) -> Result<(), NoMemory>
        ensures noted { OnOk result
            (self.new ≡ record self.old { written = written_on kind leg middle self.old }) }
        ensures kept { OnErr result (self.new ≡ self.old) }
    {
        self.written.push(RegWrite { kind, leg, middle })
    }

    fn set_in(&mut self, shape: Shape, leg: Leg, to: Middle) -> Result<(), NoMemory>
        requires { in_cell shape (module_of shape leg.input) to < length self.old.registers.ins }
        ensures { MatchResult result (λ _. self.new ≡ in_set shape leg to self.old)
            (λ _. self.new ≡ self.old) }
    {
        self.note(WriteKind::SetIn, leg, to)?;
        let word = shape.slot_of(leg.input) as u64 + 1;
        self.registers.set_in(shape, leg, to, word);
        self.phase = Phase::InSet { leg, to };
        Ok(())
    }

    fn set_mid(&mut self, shape: Shape, leg: Leg, to: Middle) -> Result<(), NoMemory>
        requires { mid_cell shape to (module_of shape leg.output) < length self.old.registers.mids }
        ensures { MatchResult result (λ _. self.new ≡ mid_set shape leg to self.old)
            (λ _. self.new ≡ self.old) }
    {
        self.note(WriteKind::SetMid, leg, to)?;
        let word = shape.module_of(leg.input) as u64 + 1;
        self.registers.set_mid(shape, leg, to, word);
        self.phase = Phase::MidSet { leg, to };
        Ok(())
    }

    // Notes a switch and its write, or neither.
    fn note_switch(&mut self, leg: Leg, to: Middle) -> Result<(), NoMemory>
        ensures noted { OnOk result (self.new ≡ record self.old
            { written = written_on SwitchOut leg to self.old; log = self.old.log ++ leg ∷ [] }) }
        ensures kept { OnErr result (self.new ≡ self.old) }
    {
        let switches = self.log.len();
        self.log.push(leg)?;
        let noted = self.note(WriteKind::SwitchOut, leg, to);
        if noted.is_err() {
            self.log.truncate(switches);
        }
        noted
    }

    fn switch_out(&mut self, leg: Leg, to: Middle) -> Result<(), NoMemory>
        requires room { HasSwitch self.old }
        requires inside { (leg.output.0 < length self.old.registers.outs)
            × (leg.output.0 < length self.old.legs) }
        ensures { MatchResult result (λ _. self.new ≡ switched leg to self.old)
            (λ _. self.new ≡ self.old) }
    {
        let number = self.log.len() as u64 + 1;
        self.note_switch(leg, to)?;
        let output = leg.output.0 as usize;
        let before = self.legs.get(output);
        let route = Route {
            input: leg.input,
            middle: to,
        };
        self.legs.set(output, Some(route));
        self.registers
            .set_out(leg.output, number * 256 + to.0 as u64 + 1);
        self.phase = phase_after(leg, before);
        if before.is_some() {
            self.looks.clear_each();
        }
        Ok(())
    }

    fn clear_out(&mut self, leg: Leg) -> Result<(), NoMemory>
        requires established { IsSome (leg_at self.old leg.output) }
        requires inside { (leg.output.0 < length self.old.registers.outs)
            × (leg.output.0 < length self.old.legs) }
        ensures cleared { OnOk result (IfSome (leg_at self.old leg.output)
            (λ w. self.new ≡ out_cleared leg w.middle self.old)) }
        ensures kept { OnErr result (self.new ≡ self.old) }
    {
        let Some(route) = self.legs.get(leg.output.0 as usize) else {
            unreachable!()
        };
        let old = route.middle;
        self.note(WriteKind::ClearOut, leg, old)?;
        self.registers.set_out(leg.output, 0);
        self.legs.set(leg.output.0 as usize, None);
        self.phase = Phase::Old { leg, old };
        self.looks.clear_each();
        Ok(())
    }

    /// Notes a look at a worker's frame word. After want of memory the mover is as before.
    pub(crate) fn look(&mut self, worker: u16, frame: u64) -> Result<(), NoMemory>
        requires { worker < length self.old.looks }
        ensures { MatchResult result (λ _. self.new ≡ looked worker frame self.old)
            (λ _. self.new ≡ self.old) }
    {
        self.looks.push_at(worker as usize, frame)
    }

    fn clear_mid(&mut self, shape: Shape, leg: Leg, old: Middle) -> Result<(), NoMemory>
        requires { mid_cell shape old (module_of shape leg.output) < length
            self.old.registers.mids }
        ensures { MatchResult result (λ _. self.new ≡ mid_cleared shape leg old self.old)
            (λ _. self.new ≡ self.old) }
    {
        self.note(WriteKind::ClearMid, leg, old)?;
        self.registers.set_mid(shape, leg, old, 0);
        self.phase = Phase::Freed { leg, old };
        Ok(())
    }

    fn clear_in(&mut self, shape: Shape, leg: Leg, old: Middle) -> Result<(), NoMemory>
        requires { in_cell shape (module_of shape leg.input) old < length self.old.registers.ins }
        ensures { MatchResult result (λ _. self.new ≡ in_cleared shape leg old self.old)
            (λ _. self.new ≡ self.old) }
    {
        self.note(WriteKind::ClearIn, leg, old)?;
        self.registers.set_in(shape, leg, old, 0);
        self.phase = Phase::Rest;
        Ok(())
    }

    /// Takes this step, which is allowed. After want of memory the mover is as before.
    pub(crate) fn step(&mut self, size: Size, event: CoreEvent) -> Result<(), NoMemory>
        requires sized { IsSize size }
        requires ruled { IsMoverRuled size self.old }
        requires allowed { MayMove size self.old event }
        ensures stepped { OnOk result (Moves size self.old event self.new) }
        ensures kept { OnErr result (self.new ≡ self.old) }
    {
        let shape = size.shape;
        match (event, self.phase) {
            (CoreEvent::SetIn { leg, to }, _) => self.set_in(shape, leg, to),
            (CoreEvent::SetMid, Phase::InSet { leg, to }) => self.set_mid(shape, leg, to),
            (CoreEvent::SwitchOut, Phase::MidSet { leg, to }) => self.switch_out(leg, to),
            (CoreEvent::ClearOut(leg), _) => self.clear_out(leg),
            (
                CoreEvent::ClearMid,
                Phase::MidSet { leg, to: middle } | Phase::Old { leg, old: middle },
            ) => self.clear_mid(shape, leg, middle),
            (
                CoreEvent::ClearIn,
                Phase::InSet { leg, to: middle } | Phase::Freed { leg, old: middle },
            ) => self.clear_in(shape, leg, middle),
            _ => unreachable!(),
        }
    }
}

// The phase after a switch of a leg whose output had this route.
fn phase_after(leg: Leg, before: Option<Route>) -> Phase
    ensures { result ≡ after_switch leg before }
{
    match before {
        None => Phase::Rest,
        Some(route) => Phase::Old {
            leg,
            old: route.middle,
        },
    }
}
