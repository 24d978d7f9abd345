//! The numbers of a three-stage switching network (Clos 1953): its shape, ports, middles, legs and registers.
#![tactic(auto)]

mod port;
mod register;
mod shape;

pub use port::{Leg, Middle, Port, Route};
pub use register::{Reg, RegWrite, WriteKind};
pub use shape::Shape;
