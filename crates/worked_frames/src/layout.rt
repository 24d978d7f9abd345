//! The registers of a shape.
ghost use Rattle.std.specs.Prelude.{◌↔◌, IsTrue};
ghost use Rattle.fabric_words.specs.Places.{IsRegInside};

use anyhow::Result;
use dxc_num::{Middle, Port, Reg, Shape};
use std::alloc::Global;

/// Whether there is such a register.
pub fn is_inside(shape: Shape, reg: Reg) -> bool
    ensures { IsTrue result ↔ IsRegInside shape reg }
{
    match reg {
        Reg::In(module, middle) => module < shape.modules() && middle.0 as u16 <= shape.slots(),
        Reg::Mid(middle, module) => middle.0 as u16 <= shape.slots() && module < shape.modules(),
        Reg::Out(port) => port.0 < shape.ports(),
    }
}

/// All registers of the shape: IN by module and middle, MID by middle and module, OUT by port.
pub fn registers(alloc: Global, shape: Shape) -> Result<Vec<Reg>> {
    let mut registers = Vec::new(alloc);
    for module in 0..shape.modules() {
        for middle in 0..shape.slots() as u8 + 1 {
            registers.push(Reg::In(module, Middle(middle)))?;
        }
    }
    for middle in 0..shape.slots() as u8 + 1 {
        for module in 0..shape.modules() {
            registers.push(Reg::Mid(Middle(middle), module))?;
        }
    }
    for port in 0..shape.ports() {
        registers.push(Reg::Out(Port(port)))?;
    }
    Ok(registers)
}
