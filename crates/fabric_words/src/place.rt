//! Where each word lies.
ghost use Rattle.std.specs.Prelude.{◌≡◌, ◌<◌};
ghost use Rattle.dxc_num.specs.Dimensions.{IsPort};
ghost use Rattle.fabric_core.specs.Registers.{in_cell, in_count};
ghost use Rattle.fabric_core.specs.State.{IsSize};
ghost use Rattle.fabric_words.specs.Places.{mid_place, out_place, frame_place, word_count, reg_place};

use dxc_num::{Middle, Port, Reg, Shape};
use fabric_core::{Size, cell};

/// The place of IN of an input module and a middle.
pub fn of_in(shape: Shape, input_module: u16, middle: Middle) -> usize
    ensures { result ≡ in_cell shape input_module middle }
{
    cell::of_in(shape, input_module, middle)
}

/// The place of MID of a middle and an output module.
pub fn of_mid(shape: Shape, middle: Middle, output_module: u16) -> usize
    ensures { result ≡ mid_place shape middle output_module }
{
    cell::ins(shape) + cell::of_mid(shape, middle, output_module)
}

/// The place of OUT of an output.
pub fn of_out(shape: Shape, output: Port) -> usize
    ensures { result ≡ out_place shape output }
{
    cell::ins(shape) + (cell::mids(shape) + output.0 as usize)
}

/// The place of a worker's frame word.
pub fn of_frame(shape: Shape, worker: u16) -> usize
    ensures { result ≡ frame_place shape worker }
{
    cell::ins(shape) + (cell::mids(shape) + (shape.ports() as usize + worker as usize))
}

/// The place of a register.
pub fn of_reg(shape: Shape, reg: Reg) -> usize
    ensures { result ≡ reg_place shape reg }
{
    match reg {
        Reg::In(input_module, middle) => of_in(shape, input_module, middle),
        Reg::Mid(middle, output_module) => of_mid(shape, middle, output_module),
        Reg::Out(output) => of_out(shape, output),
    }
}
