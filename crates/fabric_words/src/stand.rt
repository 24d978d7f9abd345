//! Where the mover stands.
ghost use Rattle.std.specs.Prelude.{◌≡◌, ◌==◌, if◌then◌else◌};
ghost use Rattle.fabric_core.specs.declared.phase.Phase.TheVariants.{Rest, InSet, MidSet, Old, Freed};
ghost use Rattle.fabric_core.specs.Owned.{HasIn};
ghost use Rattle.fabric_core.specs.Registers.{middle_in};

use crate::path::middle_of;
use dxc_num::{Leg, Middle};
use fabric_core::Phase;
use std::marker::Model;

/// What is done with the path.
#[derive(Clone, Copy, PartialEq, Eq)]
pub(crate) enum Stage {
    Rest,
    InSet,
    MidSet,
    Old,
    Freed,
}

/// A phase, whose path stays in its place while the stage goes on.
#[derive(Drop)]
pub(crate) struct Stand {
    stage: Stage,
    middle: Middle,
    leg: Leg,
}

impl Model for Stand {
    ghost use Rattle.fabric_core.specs.declared.phase.Phase.{Phase};
    ghost use Rattle.fabric_words.specs.Stands.{phase_at};

    ghost Value = { Phase };

    ghost view = { λ s. phase_at s.stage s.leg s.middle };
}

impl Stand {
    ghost use Rattle.dxc_num.specs.declared.port.Leg.{Leg};
    ghost use Rattle.dxc_num.specs.declared.port.Middle.{Middle};

    /// At rest.
    pub(crate) fn new() -> Stand
        ensures { result ≡ Rest }
    {
        Stand {
            stage: Stage::Rest,
            middle: Middle(0),
            leg: Leg::default(),
        }
    }

    /// The phase.
    #[inline(always)]
    pub(crate) fn phase(&self) -> Phase
        ensures { result ≡ self.now }
    {
        let (leg, middle) = (self.leg, self.middle);
        match self.stage {
            Stage::Rest => Phase::Rest,
            Stage::InSet => Phase::InSet { leg, to: middle },
            Stage::MidSet => Phase::MidSet { leg, to: middle },
            Stage::Old => Phase::Old { leg, old: middle },
            Stage::Freed => Phase::Freed { leg, old: middle },
        }
    }

    /// The path that the phase names, where it names one.
    #[inline(always)]
    pub(crate) fn path(&self) -> (Leg, Middle)
        ensures { (l : Leg) (k : Middle) → HasIn self.now l k → (result.0 ≡ l) × (result.1 ≡ k) }
    {
        (self.leg, self.middle)
    }

    /// The IN word of a path is set.
    #[inline(always)]
    pub(crate) fn begin(&mut self, leg: Leg, to: Middle)
        ensures { self.new ≡ InSet leg to }
    {
        self.stage = Stage::InSet;
        self.leg = leg;
        self.middle = to;
    }

    /// And its MID word.
    #[inline(always)]
    pub(crate) fn go_on(&mut self)
        ensures { (l : Leg) (k : Middle) → HasIn self.old l k → self.new ≡ MidSet l k }
    {
        self.stage = Stage::MidSet;
    }

    /// OUT was turned to the path, from this word.
    #[inline(always)]
    pub(crate) fn turn(&mut self, found: u64)
        ensures { (l : Leg) (k : Middle) → HasIn self.old l k
            → self.new ≡ (if found == 0 then Rest else Old l (middle_in found)) }
    {
        if found == 0 {
            self.stage = Stage::Rest;
        } else {
            self.stage = Stage::Old;
            self.middle = middle_of(found);
        }
    }

    /// OUT was turned away from this path.
    #[inline(always)]
    pub(crate) fn leave(&mut self, leg: Leg, old: Middle)
        ensures { self.new ≡ Old leg old }
    {
        self.stage = Stage::Old;
        self.leg = leg;
        self.middle = old;
    }

    /// The MID word of the path is cleared.
    #[inline(always)]
    pub(crate) fn free(&mut self)
        ensures { (l : Leg) (k : Middle) → HasIn self.old l k → self.new ≡ Freed l k }
    {
        self.stage = Stage::Freed;
    }

    /// The path is no more.
    #[inline(always)]
    pub(crate) fn rest(&mut self)
        ensures { self.new ≡ Rest }
    {
        self.stage = Stage::Rest;
    }
}
