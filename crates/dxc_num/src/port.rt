ghost use Rattle.std.specs.Prelude.{◌≡◌};
ghost use Rattle.dxc_num.specs.Dimensions.{leg_back};

/// A port's number: module times the slots of a module, plus slot, both from 0.
#[derive(Clone, Copy, PartialEq, Eq, PartialOrd, Ord, Hash, Default)]
pub struct Port(pub u16);

/// A middle's number. From 0 to below the number of slots it works; the number of slots is the spare.
#[derive(Clone, Copy, PartialEq, Eq, PartialOrd, Ord, Hash, Default)]
pub struct Middle(pub u8);

/// One direction of a connection: from one port's input side to another's output side.
#[derive(Clone, Copy, PartialEq, Eq, Default)]
pub struct Leg {
    pub input: Port,
    pub output: Port,
}

impl Leg {
    /// The leg the other way round.
    pub fn back(self) -> Leg
        ensures { result ≡ leg_back self }
    {
        Leg {
            input: self.output,
            output: self.input,
        }
    }
}

/// What an output side is connected to: an input side, over a middle.
#[derive(Clone, Copy, PartialEq, Eq, Default)]
pub struct Route {
    pub input: Port,
    pub middle: Middle,
}
