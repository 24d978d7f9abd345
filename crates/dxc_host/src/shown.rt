ghost use Rattle.dxc_outside.specs.Moments.{IsMoment};
ghost use Rattle.dxc_host.specs.Utc.{ShowsUtc};

use crate::moment_of;
use dxc_outside::Moment;
use std::marker::Model;

/// A second since 1970-01-01 00:00:00, and the moment that it shows. A clock is asked many times in a second.
#[derive(Drop)]
pub struct Shown {
    second: i64,
    moment: Moment,
}

impl Model for Shown {
    ghost use Rattle.dxc_outside.specs.declared.clock.Moment.{Moment};
    ghost use Rattle.dxc_outside.specs.Moments.{IsMoment};
    ghost use Rattle.dxc_host.specs.Utc.{ShowsUtc};

    ghost Value = { Moment };

    ghost view = { λ s. s.moment };

    ghost invariant = { λ s. ShowsUtc s.second s.moment × IsMoment s.moment };
}

impl Shown {
    pub fn of(second: i64) -> Shown {
        Shown {
            second,
            moment: moment_of(second),
        }
    }

    /// The moment of a second, which is computed only where it is another second than the last one.
    pub fn at(&mut self, second: i64) -> Moment
        ensures shown { ShowsUtc second result }
        ensures range { IsMoment result }
    {
        if self.second == second {
            return self.moment;
        }
        self.show(second)
    }

    // A second is another one at most once in a second, so the way to it stands apart.
    #[inline(never)]
    fn show(&mut self, second: i64) -> Moment
        ensures shown { ShowsUtc second result }
        ensures range { IsMoment result }
    {
        let moment = moment_of(second);
        self.second = second;
        self.moment = moment;
        moment
    }
}
