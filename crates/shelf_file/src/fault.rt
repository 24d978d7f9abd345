/// A key of the shelf file.
#[derive(Clone, Copy, Debug, PartialEq, Eq)]
pub enum ShelfKey {
    Sid,
    Modules,
    Slots,
    Equipped,
    Idle,
    User,
    Uid,
    Class,
    Salt,
    Digest,
}

/// The first thing that is wrong with a shelf file. A user's number counts from 1; for the top keys it is 0.
#[derive(Clone, Copy, Debug, PartialEq, Eq)]
pub enum ShelfFault {
    /// More than 65,536 bytes.
    TooLarge,
    /// The bytes are no TOML document.
    NotToml,
    /// The key isn't there.
    Missing { key: ShelfKey, user: u16 },
    /// The key's value isn't as it has to be.
    Bad { key: ShelfKey, user: u16 },
    /// The user has the name of an earlier one, without regard to case.
    TwoUsers { user: u16 },
    /// Memory was wanting; this answer is always free.
    NoMemory,
}
