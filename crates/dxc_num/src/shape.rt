ghost use Rattle.std.specs.Prelude.{◌≡◌, ◌+◌, ◌*◌, ◌<◌, ◌≤◌, MatchOption};

use crate::port::{Middle, Port};
use std::marker::Model;

/// How many modules a network has, and how many slots a module has a side: 2 to 64 by 1 to 96.
#[derive(Clone, Copy, PartialEq, Eq)]
pub struct Shape {
    modules: u16,
    slots: u16,
}

impl Model for Shape {
    ghost use Rattle.dxc_num.specs.Dimensions.{Dimensions, IsInLimits};

    ghost Value = { Dimensions };

    ghost view = { λ s. record { modules = s.modules; slots = s.slots } };

    ghost invariant = { λ s. IsInLimits (record { modules = s.modules; slots = s.slots }) };

    ghost inverse = { λ d. record { modules = d.modules; slots = d.slots } };
}

impl Shape {
    ghost use Rattle.dxc_num.specs.Dimensions.{Dimensions, IsInLimits, ports, module_of, slot_of};

    /// The most modules.
    pub const MODULES: u16 = 64;

    /// The most slots of a module.
    pub const SLOTS: u16 = 96;

    /// None exactly where the modules are outside 2 to 64 or the slots outside 1 to 96.
    pub fn new(modules: u16, slots: u16) -> Option<Shape>
        ensures { MatchOption result (¬ IsInLimits (record { modules = modules; slots = slots }))
            (λ s. (s ≡ record { modules = modules; slots = slots }) × IsInLimits s) }
    {
        if (2..=Self::MODULES).contains(&modules) && (1..=Self::SLOTS).contains(&slots) {
            Some(Shape { modules, slots })
        } else {
            None
        }
    }

    pub fn modules(&self) -> u16
        ensures value { result ≡ self.now.modules }
        ensures limits { IsInLimits self.now }
    {
        self.modules
    }

    /// The slots of a module, which is also the number of the spare middle.
    pub fn slots(&self) -> u16
        ensures value { result ≡ self.now.slots }
        ensures limits { IsInLimits self.now }
    {
        self.slots
    }

    /// How many ports there are.
    pub fn ports(&self) -> u16
        ensures value { result ≡ ports self.now }
        ensures limits { IsInLimits self.now }
    {
        self.modules * self.slots
    }

    /// The spare middle, after the working ones.
    pub fn spare(&self) -> Middle
        ensures { result.0 ≡ self.now.slots }
    {
        Middle(self.slots as u8)
    }

    /// The module that a port belongs to, from 0.
    pub fn module_of(&self, port: Port) -> u16
        ensures { result ≡ module_of self.now port }
    {
        port.0 / self.slots
    }

    /// The slot of a port in its module, from 0.
    pub fn slot_of(&self, port: Port) -> u16
        ensures { result ≡ slot_of self.now port }
    {
        port.0 % self.slots
    }
}
