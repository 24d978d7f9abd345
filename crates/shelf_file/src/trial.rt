ghost use Rattle.std.specs.Prelude.{◌≡◌, IfOk};
ghost use Rattle.shelf_file.specs.Trials.{IsTrialShelf, trial_user as user_of_trials};
ghost use Rattle.shelf_file.specs.Users.{entry_of};

use crate::idle::IdleLimits;
use crate::lists::all_marks;
use crate::shelf::Shelf;
use crate::user::{Uid, User};
use arrayvec::ArrayVec;
use dxc_model::Class;
use dxc_num::Shape;
use std::alloc::{AllocError, Global};
use tl1_text::Sid;

/// What an element on trial is called.
const SID: &[u8] = b"DXC1";

/// The name of its user.
const UID: &[u8] = b"TRIAL";

// Nobody knows a PID whose digest is all zeros.
fn trial_user() -> User
    ensures { entry_of result ≡ user_of_trials }
{
    let Ok(uid) = Uid::try_from(UID) else {
        unreachable!()
    };
    User {
        uid,
        class: Class::S,
        salt: ArrayVec::new(),
        digest: [0; 32],
    }
}

/// The shelf of an element on trial, which no file describes: DXC1, of that shape, with all modules equipped. It has one user, TRIAL of
/// class S, whom no known PID logs in.
pub fn trial_shelf(alloc: Global, shape: Shape) -> Result<Shelf, AllocError>
    ensures { IfOk result (IsTrialShelf shape) }
{
    let Some(sid) = Sid::of(SID) else {
        unreachable!()
    };
    let mut users = Vec::new(alloc);
    users.push(trial_user())?;
    Ok(Shelf {
        sid,
        shape,
        equipped: all_marks(shape.modules()),
        idle: IdleLimits::none(),
        users,
    })
}
