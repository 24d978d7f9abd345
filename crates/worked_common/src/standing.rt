ghost use Rattle.std.specs.Prelude.{◌≤◌};

use crate::noon::NOON;
use arrayvec::ArrayVec;
use dxc_model::Class;
use dxc_notes::{SessionAt, Standby, Standing, Word};

/// What each place is told of the program: the same in all rows, but for the standby.
pub fn standing_with(standby: Standby) -> Standing {
    let mut sessions = ArrayVec::new();
    let _ = sessions.try_push(session(1, b"ANNA", Class::S));
    let _ = sessions.try_push(session(9, b"CARA", Class::R));
    let _ = sessions.try_push(session(16, b"P123456789", Class::P));
    Standing {
        version: Some(Word::of(b"0.0.1")),
        since: Some(NOON),
        standby: Some(standby),
        sessions,
    }
}

fn session<const N: usize>(place: u16, user: &[u8; N], class: Class) -> SessionAt
    requires { N ≤ 10 }
{
    SessionAt {
        place,
        user: Word::of(user),
        class,
    }
}
