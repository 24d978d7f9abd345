//! Where the words of one fabric begin.
ghost use Rattle.std.specs.Prelude.{◌≡◌};
ghost use Rattle.dxc_num.specs.Dimensions.{module_of, slot_of};
ghost use Rattle.fabric_core.specs.Registers.{in_cell};
ghost use Rattle.fabric_core.specs.State.{IsSize};
ghost use Rattle.fabric_words.specs.Places.{mid_place, out_place, frame_place, reg_place};

use crate::place;
use dxc_num::{Middle, Port, Reg};
use fabric_core::{Size, cell};
use std::marker::Model;

/// A fabric's size, and where its MID, OUT and frame words begin, so that no write works these out anew.
#[derive(Drop)]
pub(crate) struct Layout {
    size: Size,
    mids: usize,
    outs: usize,
    frames: usize,
}

impl Model for Layout {
    ghost use Rattle.fabric_core.specs.declared.size.Size.{Size};
    ghost use Rattle.fabric_words.specs.Places.{AreBegins};

    ghost Value = { Size };

    ghost view = { λ l. l.size };

    ghost invariant = { λ l. AreBegins l.size.shape l.mids l.outs l.frames };
}

impl Layout {
    /// The layout of a fabric of this size.
    pub(crate) fn of(size: Size) -> Layout
        requires { IsSize size }
        ensures { result ≡ size }
    {
        let mids = cell::ins(size.shape);
        let outs = mids + cell::mids(size.shape);
        let frames = outs + size.shape.ports() as usize;
        Layout {
            size,
            mids,
            outs,
            frames,
        }
    }

    /// The module that a port belongs to.
    #[inline(always)]
    pub(crate) fn module_of(&self, port: Port) -> u16
        ensures { result ≡ module_of self.now.shape port }
    {
        self.size.shape.module_of(port)
    }

    /// The slot of a port in its module.
    #[inline(always)]
    pub(crate) fn slot_of(&self, port: Port) -> u16
        ensures { result ≡ slot_of self.now.shape port }
    {
        self.size.shape.slot_of(port)
    }

    /// The place of IN of an input module and a middle.
    #[inline(always)]
    pub(crate) fn of_in(&self, input_module: u16, middle: Middle) -> usize
        ensures { result ≡ in_cell self.now.shape input_module middle }
    {
        place::of_in(self.size.shape, input_module, middle)
    }

    /// The place of MID of a middle and an output module.
    #[inline(always)]
    pub(crate) fn of_mid(&self, middle: Middle, output_module: u16) -> usize
        ensures { result ≡ mid_place self.now.shape middle output_module }
    {
        self.mids + cell::of_mid(self.size.shape, middle, output_module)
    }

    /// The place of OUT of an output.
    #[inline(always)]
    pub(crate) fn of_out(&self, output: Port) -> usize
        ensures { result ≡ out_place self.now.shape output }
    {
        self.outs + output.0 as usize
    }

    /// The place of a worker's frame word.
    #[inline(always)]
    pub(crate) fn of_frame(&self, worker: u16) -> usize
        ensures { result ≡ frame_place self.now.shape worker }
    {
        self.frames + worker as usize
    }

    /// The place of a register.
    pub(crate) fn of_reg(&self, reg: Reg) -> usize
        ensures { result ≡ reg_place self.now.shape reg }
    {
        place::of_reg(self.size.shape, reg)
    }
}
