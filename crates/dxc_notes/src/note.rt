use crate::command::{Command, UserCommand, text_of};
use crate::word::Word;
use dxc_model::Class;
use std::fmt::{self, Display, Formatter, Write};

/// Why a caller's session ended.
#[derive(Clone, Copy)]
pub enum Ending {
    /// The caller hung up.
    HungUp,
    /// A read of its link failed.
    ReadFault,
    /// A write to its link failed.
    WriteFault,
    /// The controller was stopped.
    Stopped,
    /// It made all the reads that a session may.
    Spent,
    /// The caller didn't log in for a minute.
    Unattended,
    /// The caller was logged in, and silent for longer than its class may be.
    Idle,
    /// CANC-USER-SECU ended its user's sessions.
    Cancelled,
}

/// What happens at a place where callers come in.
#[derive(Clone, Copy)]
pub enum Note {
    /// A caller's session ended.
    Gone(Ending),
    /// Nobody is let in any more, since accepts went on failing.
    Closed,
    /// The user of this name and class logged in.
    LoggedIn(Word, Class),
    /// Who was logged in logged out.
    LoggedOut,
    /// A log-in was denied. What was given as name and PID isn't kept.
    LogInDenied,
    /// A command that changes something was done, or denied.
    Asked(Command),
    /// The same of one that changes the users, or ends a user's sessions.
    UsersAsked(UserCommand),
}

impl Ending {
    fn text(self) -> &'static str {
        match self {
            Ending::HungUp => "it hung up",
            Ending::ReadFault => "nothing could be read from it",
            Ending::WriteFault => "an answer couldn't be sent to it",
            Ending::Stopped => "the controller was stopped",
            Ending::Spent => "its session made all the reads that it may",
            Ending::Unattended => "nobody was logged in for a minute",
            Ending::Idle => "nothing came from it for longer than its class may be idle",
            Ending::Cancelled => "its user's sessions were ended",
        }
    }
}

/// As lines on standard error have it.
impl Display for Note {
    fn fmt<W: Write>(&self, f: &mut Formatter<W>) -> fmt::Result {
        match self {
            Note::Gone(ending) => write!(f, "caller gone, {}", ending.text()),
            Note::Closed => write!(f, "closed, accepts went on failing"),
            Note::LoggedIn(user, _) => write!(f, "{} logged in", text_of(user)),
            Note::LoggedOut => write!(f, "its user logged out"),
            Note::LogInDenied => write!(f, "a log-in was denied"),
            Note::Asked(command) => write!(f, "{command}"),
            Note::UsersAsked(command) => write!(f, "{command}"),
        }
    }
}
