use crate::seat::Seat;
use crate::users::UserSeat;
use dxc_disk::Disk;
use dxc_outside::{Clock, Link, Moment};

/// Gives the moments of a session's messages. Each clock is one.
pub trait Timestamps {
    ghost use Rattle.std.specs.Prelude.{◌≡◌, List};
    ghost use Rattle.dxc_outside.specs.declared.clock.Moment.{Moment};
    ghost use Rattle.dxc_outside.specs.Moments.{IsMoment, moment_now, later_moments};
    ghost use Rattle.craft_session.specs.Stamps.{Stamp, stamp_at};

    /// Whether clocks of this type tell their content.
    ghost told: { Type 0 };

    /// The moments still to come, of which the last repeats.
    ghost coming: { Self → List Moment };

    /// That a moment was taken where a session stood so. Nothing but `stamp` gives it of clocks of any type, so a call that tells how
    /// its link and its seats stood at each moment did take these moments there.
    ghost stamped: { Stamp → Type 0 };

    /// The moment at which it is asked, for a message that the link is about to be written.
    fn stamp<K: Link, D: Disk + Drop, U: Disk + Drop>(
        &mut self,
        link: &K,
        seat: &Seat<D>,
        users: &UserSeat<U>,
    ) -> Moment
        ensures range { IsMoment result }
        ensures now { told → result ≡ moment_now (coming self.old) }
        ensures later { told → coming self.new ≡ later_moments (coming self.old) }
        ensures stamped { stamped
            (stamp_at (coming self.old) (K.state link.now) seat.now users.now) };
}

impl<C: Clock> Timestamps for C {
    ghost told = { C.told };

    ghost coming = { C.coming };

    ghost stamped = { λ _. Unit {0} };

    fn stamp<K: Link, D: Disk + Drop, U: Disk + Drop>(
        &mut self,
        _: &K,
        _: &Seat<D>,
        _: &UserSeat<U>,
    ) -> Moment {
        self.now()
    }
}
