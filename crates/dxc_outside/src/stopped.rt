/// The controller was stopped: a gate says so in place of letting its caller go on.
#[derive(Clone, Copy, Debug, PartialEq, Eq)]
pub struct Stopped;
