//! Whether another ended the sessions of who is logged in.
ghost use Rattle.std.specs.Prelude.{◌≡◌, true, List};
ghost use Rattle.user_admin.specs.declared.op.UserEntry.{UserEntry as Entry};
ghost use Rattle.user_admin.specs.Turns.{Saw};
ghost use Rattle.craft_session.specs.Cancelling.{Heeded, looking};
ghost use Rattle.craft_session.specs.Seats.{IsSameUserSeat, UserSeatGoesOn, UsersInTurn};

use crate::desk::Desk;
use crate::patience::Patience;
use crate::users::UserSeat;
use dxc_disk::Disk;
use dxc_model::SessionUser;
use std::sync::Wait;

/// Looks whether the sessions of who is logged in were ended, where callers come. One without a log-in looks for nothing, and so does one that
/// has no others beside it.
pub(crate) fn is_cancelled<D: Disk + Drop, U: Disk + Drop, R: Wait>(
    desk: &mut Desk<D, U>,
    patience: Patience,
    rt: &R,
) -> bool
    ensures shelf { desk.new.shelf ≡ desk.old.shelf }
    ensures seat { desk.new.seat ≡ desk.old.seat }
    ensures users { IsSameUserSeat desk.old.users.seat desk.new.users.seat }
    ensures in_turn { UsersInTurn desk.old.seat desk.old.users.seat desk.new.users.seat }
    ensures attending { desk.new.attending ≡ desk.old.attending }
    ensures reader { desk.new.reader ≡ desk.old.reader }
    ensures limited { result ≡ true → patience ≡ Patience.Limited }
    ensures heeded { (h : List Entry) → Saw desk.old.users.seat.opening desk.old.users.seat.seen h
        → Heeded (looking patience desk.old.attending.user desk.old.users.seat) h
        desk.new.users.seat.seen result }
{
    let user = desk.attending.user;
    desk.users.seat.hear(&desk.seat);
    looked_after(&mut desk.users.seat, patience, user, rt)
}

// The same of a seat at the users.
fn looked_after<U: Disk + Drop, R: Wait>(
    seat: &mut UserSeat<U>,
    patience: Patience,
    user: SessionUser,
    rt: &R,
) -> bool
    ensures same { IsSameUserSeat seat.old seat.new }
    ensures goes { UserSeatGoesOn seat.old seat.new }
    ensures limited { result ≡ true → patience ≡ Patience.Limited }
    ensures heeded { (h : List Entry) → Saw seat.old.opening seat.old.seen h
        → Heeded (looking patience user seat.old) h seat.new.seen result }
{
    match patience {
        Patience::Endless => false,
        Patience::Limited => match user {
            SessionUser::Nobody => false,
            SessionUser::User { .. } => seat.is_cancelled(rt),
        },
    }
}
