//! Who logged in at which place, in memory alone: no session outlives a start.
ghost use Rattle.std.specs.Prelude.{◌≡◌, map, slice_get};
ghost use Rattle.shelf_file.specs.Keys.{upper as in_upper_case};
ghost use Rattle.user_admin.specs.Occupants.{answered, is_out, logged_in, nobody_yet as nobody, without as left_without};

use crate::secret::upper;
use dxc_model::Uid;
use tl1_users::UserOp;

/// So many places are kept: sessions at a place beyond these aren't ended by others.
const PLACES: usize = 64;

/// Who logged in at a place last, and whether the user's sessions were ended since. A log-out isn't told.
#[derive(Clone, Copy)]
pub enum Occupant {
    /// Nobody has logged in there.
    Nobody,
    /// The user of this name in upper case.
    User(Uid),
    /// One whose sessions were ended since.
    Cancelled,
}

/// One for each place.
pub(crate) type Occupants = [Occupant; PLACES];

/// Nobody has logged in anywhere.
pub(crate) fn nobody_yet() -> Occupants
    ensures { result ≡ nobody }
{
    [Occupant::Nobody; PLACES]
}

// One whose name is this one, in upper case, is cancelled.
fn without(name: Uid, occupant: Occupant) -> Occupant
    ensures { result ≡ left_without name occupant }
{
    match &occupant {
        Occupant::Nobody => Occupant::Nobody,
        Occupant::User(uid) => {
            if uid.bytes() == name.bytes() {
                Occupant::Cancelled
            } else {
                Occupant::User(*uid)
            }
        }
        Occupant::Cancelled => Occupant::Cancelled,
    }
}

// The user has logged in at the place.
fn log_in(occupants: &mut Occupants, place: u16, uid: Uid)
    ensures { occupants.new ≡ logged_in place (in_upper_case uid) occupants.old }
{
    let place = place as usize;
    if place < PLACES {
        occupants[place] = Occupant::User(upper(uid));
    }
}

// The user's sessions end, at whatever place.
fn cancel(occupants: &mut Occupants, uid: Uid)
    ensures { occupants.new ≡ map (left_without (in_upper_case uid)) occupants.old }
{
    let name = upper(uid);
    for place in 0..PLACES {
        occupants[place] = without(name, occupants[place]);
    }
}

/// Puts down who is where after an operation of the place that is answered.
// In line, so that an operation which names a user alone needs no room: the room of any other, which has two PIDs, is cleared.
#[inline(always)]
pub(crate) fn answer(occupants: &mut Occupants, place: u16, op: &UserOp)
    ensures { occupants.new ≡ answered place op.now occupants.old }
{
    match op {
        UserOp::LogIn(uid) => log_in(occupants, place, *uid),
        UserOp::Cancel(uid) => cancel(occupants, *uid),
        UserOp::Enter { .. }
        | UserOp::Edit { .. }
        | UserOp::Delete(_)
        | UserOp::EditPid { .. }
        | UserOp::Rows(_)
        | UserOp::Look(_) => {}
    }
}

/// Whether the sessions were ended of who logged in at the place last.
pub(crate) fn has_ended(occupants: &Occupants, place: u16) -> bool
    ensures { result ≡ is_out (slice_get occupants.now place) }
{
    match occupants.get(place as usize) {
        Some(Occupant::Cancelled) => true,
        Some(Occupant::Nobody) | Some(Occupant::User(_)) | None => false,
    }
}
