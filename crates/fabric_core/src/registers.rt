ghost use Rattle.std.specs.Prelude.{◌≡◌, ◌+◌, ◌<◌, length, IfOk};
ghost use Rattle.dxc_num.specs.Dimensions.{module_of};
ghost use Rattle.fabric_core.specs.Registers.{in_cell, mid_cell, in_word, mid_word, out_word};
ghost use Rattle.fabric_core.specs.State.{new_registers};
ghost use Rattle.fabric_core.specs.Moving.{with_in, with_mid, with_out};

use crate::cell;
use crate::row::Row;
use dxc_causes::NoMemory;
use dxc_num::{Leg, Middle, Port, Shape};
use std::alloc::Global;

/// The words of the registers, in the order in which they lie. 0 is none. An IN word is a slot plus one, a MID word an input module
/// plus one, an OUT word the number of a switch times 256 plus a middle plus one.
#[derive(Drop)]
pub struct Registers {
    pub ins: Row<u64>,
    pub mids: Row<u64>,
    pub outs: Row<u64>,
}

impl Registers {
    /// All words none.
    pub fn new(alloc: Global, shape: Shape) -> Result<Registers, NoMemory>
        ensures { IfOk result (λ r. r ≡ new_registers shape) }
    {
        Ok(Registers {
            ins: Row::filled(alloc, 0, cell::ins(shape))?,
            mids: Row::filled(alloc, 0, cell::mids(shape))?,
            outs: Row::filled(alloc, 0, shape.ports() as usize)?,
        })
    }

    /// IN of an input module and a middle.
    pub fn in_at(&self, shape: Shape, input_module: u16, middle: Middle) -> u64
        requires { in_cell shape input_module middle < length self.now.ins }
        ensures { result ≡ in_word shape self.now input_module middle }
    {
        self.ins.get(cell::of_in(shape, input_module, middle))
    }

    /// MID of a middle and an output module.
    pub fn mid_at(&self, shape: Shape, middle: Middle, output_module: u16) -> u64
        requires { mid_cell shape middle output_module < length self.now.mids }
        ensures { result ≡ mid_word shape self.now middle output_module }
    {
        self.mids.get(cell::of_mid(shape, middle, output_module))
    }

    /// OUT of an output.
    pub fn out_at(&self, output: Port) -> u64
        requires { output.0 < length self.now.outs }
        ensures { result ≡ out_word self.now output }
    {
        self.outs.get(output.0 as usize)
    }

    /// Writes IN on the path of a leg over a middle.
    pub(crate) fn set_in(&mut self, shape: Shape, leg: Leg, middle: Middle, word: u64)
        requires { in_cell shape (module_of shape leg.input) middle < length self.old.ins }
        ensures { self.new ≡ with_in shape leg middle word self.old }
    {
        self.ins.set(cell::of_in(shape, shape.module_of(leg.input), middle), word);
    }

    /// Writes MID on that path.
    pub(crate) fn set_mid(&mut self, shape: Shape, leg: Leg, middle: Middle, word: u64)
        requires { mid_cell shape middle (module_of shape leg.output) < length self.old.mids }
        ensures { self.new ≡ with_mid shape leg middle word self.old }
    {
        self.mids.set(
            cell::of_mid(shape, middle, shape.module_of(leg.output)),
            word,
        );
    }

    /// Writes OUT of an output.
    pub(crate) fn set_out(&mut self, output: Port, word: u64)
        requires { output.0 < length self.old.outs }
        ensures { self.new ≡ with_out output word self.old }
    {
        self.outs.set(output.0 as usize, word);
    }
}
