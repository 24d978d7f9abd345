ghost use Rattle.std.specs.Prelude.{◌≡◌};
ghost use Rattle.dxc_args.specs.Statuses.{number_of, status_of_sent};

use dxc_outside::Sent;
use shelf_file::ShelfFault;

/// Why a journal can't be taken up.
#[derive(Clone, Copy, Debug, PartialEq, Eq)]
pub enum JournalBad {
    /// The file isn't new, and its header isn't one of the shelf's shape: its first 32 bytes.
    Header([u8; 32]),
    /// The record of this number, from 0, is the first that makes no change.
    Record(u32),
    /// The same of the users' journal.
    UsersHeader([u8; 32]),
    UsersRecord(u32),
}

/// How the program ends.
#[derive(Clone, Copy, Debug, PartialEq, Eq)]
pub enum Status {
    /// The mode ran to its end.
    Done,
    /// The words are no line of the program.
    BadWords,
    /// The shelf file's first fault.
    BadShelf(ShelfFault),
    /// A journal can't be taken up.
    BadJournal(JournalBad),
    /// A journal's disk failed while the program opened, or that of a standby's journal.
    Disk,
    /// Something that the words name couldn't be opened: the shelf file, the journal, lines, the address or the peer. Or 16 accepts of a
    /// standby in a row failed.
    CannotOpen,
    /// A thread couldn't be started. No further one was, and those that ran have ended.
    NoThread,
    /// Memory was wanting while the program opened.
    NoMemory,
    /// The terminal failed, or a standby's link.
    Link,
    /// The gate stopped: the command in hand has no response.
    Stopped,
    /// 2^32 reads were made.
    Spent,
    /// What came over a standby's link is no item of a primary's.
    BadMessage,
    /// The journal of a standby held bytes before the first item.
    NotEmpty,
}

impl Status {
    /// The number that the process ends with.
    pub fn number(self) -> u8
        ensures { result ≡ number_of self }
    {
        match self {
            Status::Done => 0,
            Status::BadWords => 2,
            Status::BadShelf(_) => 3,
            Status::BadJournal(_) => 4,
            Status::Disk => 5,
            Status::CannotOpen => 6,
            Status::NoThread => 7,
            Status::NoMemory => 8,
            Status::Link => 9,
            Status::Stopped => 10,
            Status::Spent => 11,
            Status::BadMessage => 12,
            Status::NotEmpty => 13,
        }
    }

    /// After lines were written to the terminal.
    pub fn of_sent(sent: Sent) -> Status
        ensures { result ≡ status_of_sent sent }
    {
        match sent {
            Sent::Whole => Status::Done,
            Sent::Cut => Status::Link,
        }
    }
}
