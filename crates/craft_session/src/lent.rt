//! What a session is lent, as one word of clauses: `⟦<(K, C, G, D) as Lent>⟧`.
use crate::timestamps::Timestamps;
use dxc_disk::Disk;
use dxc_outside::{Gate, Link};

/// Has no function. Its one member holds those of a link, a clock, a gate and a disk, so that a clause passes them whole.
pub trait Lent {
    ghost use Rattle.craft_session.specs.Lending.{Members};

    ghost lent: { Members };
}

impl<K: Link, C: Timestamps, G: Gate, D: Disk> Lent for (K, C, G, D) {
    ghost use Rattle.craft_session.specs.Lending.{members};

    ghost lent = { members K.Link C.Timestamps G.Gate D.Disk };
}
