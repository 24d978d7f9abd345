use dxc_model::{Cause, Op, Selection, SessionUser};
use tl1_command::Subject;
use tl1_text::Span;
use xc_core::turns::Inventory;

/// What a unit means, before the users are asked. What it asks of the session and of the users is large: it stands where it was put down.
#[derive(Clone, Copy)]
pub enum Meaning {
    /// It asks what was put down, whatever the users know.
    Session,
    /// ACT-USER: the parts of the unit that are the user's name and PID.
    LogIn { uid: Span, pid: Span },
    /// It asks of the users what was put down.
    Users,
}

/// What a unit asks of a session: a cause that unit, user and shelf alone decide, else a command.
#[derive(Clone, Copy)]
pub enum Ask {
    Refused(Cause),
    /// ACT-USER of this user.
    LogsIn(SessionUser),
    /// CANC-USER.
    LogsOut,
    /// RTRV-HDR, or a command of the users that they did.
    Completes,
    /// ALW-MSG-ALL.
    Allows,
    /// INH-MSG-ALL.
    Inhibits,
    /// RTRV-CRS-T0.
    Lists(Selection),
    /// RTRV-MID, RTRV-SYS.
    Shows(Subject),
    /// INIT-SYS.
    Restarts,
    /// A command that changes the table.
    Changes(Op),
}

/// What the session did of it. Listed rows stand beside it.
#[derive(Clone, Copy)]
pub enum Acted {
    Completed,
    Listed,
    Shown(Subject, Inventory),
    Restarted,
    Denied(Cause),
}
