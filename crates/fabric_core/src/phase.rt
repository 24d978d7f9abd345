use dxc_num::{Leg, Middle};

/// What the mover is about: the path that is not, or no longer, an established leg's.
#[derive(Clone, Copy, PartialEq, Eq)]
pub enum Phase {
    /// Each path is an established leg's.
    Rest,
    /// The leg's IN word at this middle is set.
    InSet { leg: Leg, to: Middle },
    /// Its IN and MID words at this middle are set.
    MidSet { leg: Leg, to: Middle },
    /// OUT was turned away from this middle, and a frame may still follow the old word.
    Old { leg: Leg, old: Middle },
    /// The MID word is gone, the IN word is still set.
    Freed { leg: Leg, old: Middle },
}
