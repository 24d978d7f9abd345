use crate::word::Word;
use dxc_model::Cause;
use std::fmt::{self, Display, Formatter, Write};

/// A port by its number, from 0, of a shelf with so many slots a module.
// Its name is reckoned where it is written: where nobody is told, LLVM would keep the look at the divisor.
#[derive(Clone, Copy)]
pub struct PortAt {
    pub number: u16,
    pub slots: u16,
}

/// What a command changes. Modules and middles are numbered from 0.
#[derive(Clone, Copy)]
pub enum What {
    Enter { from: PortAt, to: PortAt },
    Edit { from: PortAt, to: PortAt },
    Delete { from: PortAt, to: PortAt },
    EnterModule(u16),
    DeleteModule(u16),
    TakeOut(u8),
    PutBack(u8),
    /// The controller, which it restarts.
    Restart,
    /// Nothing.
    Nothing,
}

/// What came of a command.
#[derive(Clone, Copy)]
pub enum Outcome {
    Done,
    Denied(Cause),
}

/// A command that changes circuits or equipment, or restarts the controller, and what came of it.
#[derive(Clone, Copy)]
pub struct Command {
    /// Who gave it; empty for nobody.
    pub user: Word,
    /// Empty where it had none.
    pub tag: Word,
    pub what: What,
    pub outcome: Outcome,
}

/// What is done to a user.
#[derive(Clone, Copy)]
pub enum UserChange {
    Enter,
    Edit,
    Delete,
    EditPid,
    /// Their sessions are ended.
    Cancel,
}

/// A command that changes the users or ends a user's sessions, and what came of it.
#[derive(Clone, Copy)]
pub struct UserCommand {
    /// Who gave it; empty for nobody.
    pub user: Word,
    /// Empty where it had none.
    pub tag: Word,
    pub change: UserChange,
    /// The user whom it names, as the name was given.
    pub changed: Word,
    pub outcome: Outcome,
}

pub(crate) fn text_of(word: &Word) -> &str {
    match str::from_utf8(word.bytes()) {
        Ok(text) => text,
        Err(_) => "?",
    }
}

// Names count from 1.
fn one_more(number: u16) -> u32 {
    number as u32 + 1
}

/// A port's name.
impl Display for PortAt {
    fn fmt<W: Write>(&self, f: &mut Formatter<W>) -> fmt::Result {
        if self.slots == 0 {
            return f.write_str("?");
        }
        let module = one_more(self.number / self.slots);
        let slot = one_more(self.number % self.slots);
        write!(f, "DS0-{module}-{slot}")
    }
}

/// A command's code, and what it names.
impl Display for What {
    fn fmt<W: Write>(&self, f: &mut Formatter<W>) -> fmt::Result {
        match self {
            What::Enter { from, to } => write!(f, "ENT-CRS-T0 {from},{to}"),
            What::Edit { from, to } => write!(f, "ED-CRS-T0 {from},{to}"),
            What::Delete { from, to } => write!(f, "DLT-CRS-T0 {from},{to}"),
            What::EnterModule(module) => write!(f, "ENT-EQPT MOD-{}", one_more(*module)),
            What::DeleteModule(module) => write!(f, "DLT-EQPT MOD-{}", one_more(*module)),
            What::TakeOut(middle) => write!(f, "RMV-MID MID-{}", one_more(*middle as u16)),
            What::PutBack(middle) => write!(f, "RST-MID MID-{}", one_more(*middle as u16)),
            What::Restart => f.write_str("INIT-SYS"),
            What::Nothing => f.write_str("nothing"),
        }
    }
}

/// A command's code.
impl Display for UserChange {
    fn fmt<W: Write>(&self, f: &mut Formatter<W>) -> fmt::Result {
        f.write_str(match self {
            UserChange::Enter => "ENT-USER-SECU",
            UserChange::Edit => "ED-USER-SECU",
            UserChange::Delete => "DLT-USER-SECU",
            UserChange::EditPid => "ED-PID",
            UserChange::Cancel => "CANC-USER-SECU",
        })
    }
}

impl Display for Outcome {
    fn fmt<W: Write>(&self, f: &mut Formatter<W>) -> fmt::Result {
        match self {
            Outcome::Done => f.write_str("done"),
            Outcome::Denied(cause) => write!(f, "denied, {} {}", cause.code(), cause.text()),
        }
    }
}

/// Who gave which command with which tag, and what came of it.
impl Display for Command {
    fn fmt<W: Write>(&self, f: &mut Formatter<W>) -> fmt::Result {
        let (user, tag) = (text_of(&self.user), text_of(&self.tag));
        write!(f, "{user} {tag} {}: {}", self.what, self.outcome)
    }
}

/// Who gave which command with which tag on whom, and what came of it.
impl Display for UserCommand {
    fn fmt<W: Write>(&self, f: &mut Formatter<W>) -> fmt::Result {
        let (user, tag) = (text_of(&self.user), text_of(&self.tag));
        let changed = text_of(&self.changed);
        write!(
            f,
            "{user} {tag} {} {changed}: {}",
            self.change, self.outcome
        )
    }
}
