//! Where the words of IN and MID lie among their own.
ghost use Rattle.std.specs.Prelude.{◌≡◌, ◌<◌};
ghost use Rattle.fabric_core.specs.Registers.{in_cell, mid_cell, in_count, mid_count};
ghost use Rattle.fabric_core.specs.Moving.{IsMiddle};

use dxc_num::{Middle, Shape};

/// The cell of an input module's IN word at a middle.
pub fn of_in(shape: Shape, input_module: u16, middle: Middle) -> usize
    ensures { result ≡ in_cell shape input_module middle }
{
    (middle.0 as usize + 1) * shape.modules() as usize + (input_module as usize + 1)
}

/// The cell of an output module's MID word at a middle.
pub fn of_mid(shape: Shape, middle: Middle, output_module: u16) -> usize
    ensures { result ≡ mid_cell shape middle output_module }
{
    (middle.0 as usize + 1) * shape.modules() as usize + output_module as usize
}

/// How many cells IN has.
pub fn ins(shape: Shape) -> usize
    ensures { result ≡ in_count shape }
{
    mids(shape) + 1
}

/// How many cells MID has.
pub fn mids(shape: Shape) -> usize
    ensures { result ≡ mid_count shape }
{
    (shape.slots() as usize + 2) * shape.modules() as usize
}
