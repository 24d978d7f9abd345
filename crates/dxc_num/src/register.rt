use crate::port::{Leg, Middle, Port};

/// One register of the network, a 64-bit word.
#[derive(Clone, Copy, PartialEq, Eq)]
pub enum Reg {
    /// Which slot of an input module goes to a middle.
    In(u16, Middle),
    /// Which input module a middle passes to an output module.
    Mid(Middle, u16),
    /// Which middle an output takes, and the number of its switch.
    Out(Port),
}

/// What a write does to the path of a leg.
#[derive(Clone, Copy, PartialEq, Eq)]
pub enum WriteKind {
    SetIn,
    SetMid,
    SwitchOut,
    ClearOut,
    ClearMid,
    ClearIn,
}

/// One write of a register on the path of a leg over a middle.
#[derive(Clone, Copy, PartialEq, Eq)]
pub struct RegWrite {
    pub kind: WriteKind,
    pub leg: Leg,
    pub middle: Middle,
}
