use dxc_outside::Stopped;

/// What stood in the way of the next write, which isn't made.
#[derive(Clone, Copy, PartialEq, Eq)]
pub enum Halt {
    /// It clears an old MID word, and a frame of this number runs that may still follow it.
    InFrame(u64),
    /// The gate stopped before it.
    Stopped,
}

impl From<Stopped> for Halt {
    ghost use Rattle.std.specs.Prelude.{◌≡◌};
    ghost use Rattle.roll_engine.specs.declared.halt.Halt.TheVariants.{Stopped as halted};

    ghost from_gives = { λ _ h. h ≡ halted };

    fn from(_stopped: Stopped) -> Halt {
        Halt::Stopped
    }
}
