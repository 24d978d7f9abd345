use dxc_outside::{Clock, Moment};

/// The clock of the load, which stands still at 26-01-01 00:00:00.
#[derive(Clone, Copy, Drop)]
pub struct LoadClock;

/// The one moment that it gives.
const MOMENT: Moment = Moment {
    year: 26,
    month: 1,
    day: 1,
    hour: 0,
    minute: 0,
    second: 0,
};

impl Clock for LoadClock {
    ghost use Rattle.std.specs.Prelude.{[], ◌∷◌};
    ghost use Rattle.dxc_load.specs.Script.{load_moment};

    ghost told = { Unit {0} };

    ghost coming = { λ c. load_moment ∷ [] };

    fn now(&mut self) -> Moment {
        MOMENT
    }
}
