use dxc_model::Op;
use tl1_text::Span;

/// What of the element besides its connections a unit asks to be shown.
#[derive(Clone, Copy, PartialEq, Eq)]
pub enum Subject {
    /// The middle that is out of service.
    Middle,
    /// The equipped modules, and the middle that is out of service.
    System,
}

/// What a unit asks for. Spans are parts of the unit's text.
#[derive(Clone, Copy, PartialEq, Eq)]
pub enum Command {
    /// ACT-USER: the user's name and password.
    ActUser { uid: Span, pid: Span },
    /// CANC-USER: the user's name, which may be empty.
    CancUser { uid: Span },
    /// RTRV-HDR.
    Header,
    /// ALW-MSG-ALL.
    Allow,
    /// INH-MSG-ALL.
    Inhibit,
    /// RTRV-MID, RTRV-SYS.
    Show(Subject),
    /// A command on the table, a look aside.
    Table(Op),
}
