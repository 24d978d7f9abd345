use crate::last_sync::LastSync;
use std::alloc::Global;
use std::fmt::{self, Display, Formatter, Write};
use std::io;

/// A copy of a journal that was to be made, and how far it came: shown as what its name stands for.
#[derive(Drop)]
pub struct Copied {
    name: String,
    last_sync: LastSync,
}

impl Copied {
    pub(crate) fn new(alloc: Global, name: &str, last_sync: LastSync) -> io::Result<Copied> {
        let name = name.to_string(alloc)?;
        Ok(Copied { name, last_sync })
    }

    /// For one more holder; none where memory is wanting.
    pub(crate) fn last_sync(&self) -> Option<LastSync> {
        self.last_sync.shared().ok()
    }
}

impl Display for Copied {
    fn fmt<W: Write>(&self, f: &mut Formatter<W>) -> fmt::Result {
        let name = self.name.as_str().escape_debug();
        match self.last_sync.moment() {
            Some(moment) => write!(f, "{name} is whole, and was synced last at {moment}"),
            None => write!(f, "{name} holds nothing, since it was never whole"),
        }
    }
}
