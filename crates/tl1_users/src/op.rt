use arrayvec::ArrayVec;
use dxc_model::{Class, Uid};

/// A password (PID) as it was given. It is never kept.
pub type Pid = ArrayVec<u8, 2048>;

/// What is asked of the users. Names are as they were written.
#[derive(Drop)]
pub enum UserOp {
    Enter {
        uid: Uid,
        pid: Pid,
        class: Class,
    },
    /// Changes what is named, and leaves the rest.
    Edit {
        uid: Uid,
        pid: Option<Pid>,
        class: Option<Class>,
    },
    Delete(Uid),
    /// Gives another PID to one who knows the old one.
    EditPid {
        uid: Uid,
        old: Pid,
        new: Pid,
    },
    /// The classes of one user, or of all.
    Rows(Option<Uid>),
    /// A look at the users for a log-in that let nobody in.
    Look(Uid),
    /// A log-in that let its user in, at a place where nobody was logged in.
    LogIn(Uid),
    /// Ends the sessions of a user, whom the users may not know any more.
    Cancel(Uid),
}
