ghost use Rattle.std.specs.Prelude.{◌≡◌, ◌≢◌, ◌<◌, ◌≤◌, ◌^◌, ◌↔◌, IsTrue, MatchResult, OnOk, OnErr};
ghost use Rattle.dxc_num.specs.Dimensions.{IsPort};
ghost use Rattle.fabric_core.specs.State.{IsSize, new_worker};
ghost use Rattle.fabric_core.specs.Working.{begun, CanLoadOut, hold_of, out_loaded, HasOutput, mid_loaded, HasPath, port_of, in_loaded};
ghost use Rattle.fabric_core.specs.Steps.{Works};
ghost use Rattle.fabric_core.specs.Allowed.{MayWork};
ghost use Rattle.fabric_core.specs.Owned.{IsMoverRuled};
ghost use Rattle.fabric_core.specs.Rule.{IsWorkerRuled};

use crate::event::CoreEvent;
use crate::mover::Mover;
use crate::row::Row;
use crate::size::Size;
use dxc_causes::NoMemory;
use dxc_num::{Middle, Port, Shape};
use std::alloc::Global;

/// What a worker that follows an output has found so far.
#[derive(Clone, Copy, PartialEq, Eq)]
pub enum Hold {
    /// Nothing.
    Empty,
    /// The OUT word of an output: the number of its switch, and a middle.
    Output {
        output: Port,
        number: u64,
        middle: Middle,
    },
    /// The MID word besides: an input module.
    Path {
        output: Port,
        number: u64,
        middle: Middle,
        module: u16,
    },
}

impl Hold {
    /// What an OUT word gives to follow.
    pub fn of(output: Port, word: u64) -> Hold
        ensures { result ≡ hold_of output word }
    {
        if word == 0 {
            return Hold::Empty;
        }
        Hold::Output {
            output,
            number: word / 256,
            middle: Middle((word % 256).saturating_sub(1) as u8),
        }
    }
}

/// What a worker notes, load by load.
#[derive(Clone, Copy, PartialEq, Eq)]
pub enum Note {
    /// The OUT word of an output.
    OutWord {
        output: Port,
        word: u64,
    },
    /// The MID word that the hold names.
    MidWord {
        word: u64,
    },
    /// The IN word that the hold names.
    InWord {
        word: u64,
    },
    /// An output carried this input, by the switch of this number.
    Carried {
        output: Port,
        number: u64,
        input: Port,
    },
}

/// What one worker alone changes.
#[derive(Drop)]
pub struct Worker {
    pub number: u16,
    /// Its frame word: odd while a frame runs.
    pub frame: u64,
    pub hold: Hold,
    pub notes: Row<Note>,
}

impl Worker {
    /// A worker that has done nothing yet.
    pub fn new(alloc: Global, number: u16) -> Worker
        ensures { result ≡ new_worker number }
    {
        Worker {
            number,
            frame: 0,
            hold: Hold::Empty,
            notes: Row::new(alloc),
        }
    }

    // Begins a frame, or ends it.
    fn turn_frame(&mut self)
        requires { self.old.frame < 2 ^ 63 }
        ensures { self.new ≡ begun self.old }
    {
        self.frame += 1;
        self.hold = Hold::Empty;
    }

    fn load_out(&mut self, output: Port, word: u64) -> Result<(), NoMemory>
        ensures { MatchResult result (λ _. self.new ≡ out_loaded output word self.old)
            (λ _. self.new ≡ self.old) }
    {
        self.notes.push(Note::OutWord { output, word })?;
        self.hold = Hold::of(output, word);
        Ok(())
    }

    fn load_mid(&mut self, word: u64) -> Result<(), NoMemory>
        requires hold { HasOutput self.old.hold }
        requires fits { word ≤ 2 ^ 16 }
        ensures { MatchResult result (λ _. self.new ≡ mid_loaded word self.old)
            (λ _. self.new ≡ self.old) }
    {
        let Hold::Output {
            output,
            number,
            middle,
        } = self.hold
        else {
            unreachable!()
        };
        self.notes.push(Note::MidWord { word })?;
        self.hold = Hold::Path {
            output,
            number,
            middle,
            module: word.saturating_sub(1) as u16,
        };
        Ok(())
    }

    fn load_in(&mut self, shape: Shape, word: u64) -> Result<(), NoMemory>
        requires hold { HasPath self.old.hold }
        requires fits { IsPort shape (port_of shape self.old.hold word) }
        ensures { MatchResult result (λ _. self.new ≡ in_loaded shape word self.old)
            (λ _. self.new ≡ self.old) }
    {
        let Hold::Path {
            output,
            number,
            middle: _,
            module,
        } = self.hold
        else {
            unreachable!()
        };
        let slot = word.saturating_sub(1) as u16;
        let input = Port(module * shape.slots() + slot);
        self.notes.push_both(
            Note::InWord { word },
            Note::Carried {
                output,
                number,
                input,
            },
        )?;
        self.hold = Hold::Empty;
        Ok(())
    }

    /// Whether this step of the worker is allowed.
    pub(crate) fn may(&self, size: Size, event: CoreEvent) -> bool
        requires { IsSize size }
        ensures { IsTrue result ↔ MayWork size self.now event }
    {
        match event {
            CoreEvent::Begin(_) => self.frame % 2 == 0 && self.frame < (1 << 63) - 2,
            CoreEvent::LoadOut { worker: _, output } => self.may_load_out(size, output),
            CoreEvent::LoadMid(_) => matches!(self.hold, Hold::Output { .. }),
            CoreEvent::LoadIn(_) => matches!(self.hold, Hold::Path { .. }),
            CoreEvent::End(_) => self.frame % 2 == 1,
            _ => false,
        }
    }

    fn may_load_out(&self, size: Size, output: Port) -> bool
        requires { IsSize size }
        ensures { IsTrue result ↔ CanLoadOut size output self.now }
    {
        let shape = size.shape;
        self.frame % 2 == 1
            && output.0 < shape.ports()
            && shape.module_of(output) % size.workers == self.number
    }

    /// Takes this step, which is allowed. After want of memory the worker is as before.
    pub(crate) fn step(
        &mut self,
        mover: &Mover,
        size: Size,
        event: CoreEvent,
    ) -> Result<(), NoMemory>
        requires sized { IsSize size }
        requires mover { IsMoverRuled size mover.now }
        requires ruled { IsWorkerRuled size.shape mover.now self.old }
        requires allowed { MayWork size self.old event }
        ensures stepped { OnOk result (Works size mover.now self.old event self.new) }
        ensures kept { OnErr result (self.new ≡ self.old) }
    {
        match event {
            CoreEvent::Begin(_) | CoreEvent::End(_) => {
                self.turn_frame();
                Ok(())
            }
            CoreEvent::LoadOut { worker: _, output } => {
                self.load_out(output, mover.registers.out_at(output))
            }
            CoreEvent::LoadMid(_) => self.load_mid(mover.mid_of(size.shape, self.hold)),
            CoreEvent::LoadIn(_) => self.load_in(size.shape, mover.in_of(size.shape, self.hold)),
            _ => unreachable!(),
        }
    }
}
