//! A session's link and its clock.

use anyhow::Result;
use dxc_outside::{MemClock, MemLink};
use std::alloc::Global;
use worked_common::{NOON, Part, exchange_of, same_bytes};

/// The element's name, as headers have it.
const SID: &str = "DXC1";

/// What a session is lent, and what it must be written.
#[derive(Drop)]
pub struct Talk {
    pub link: MemLink,
    pub clock: MemClock,
    wanted: Vec<u8>,
}

impl Talk {
    /// What the session's lines say.
    pub fn of(alloc: Global, session: Part<'_, '_>) -> Result<Talk> {
        let exchange = exchange_of(alloc, SID, session)?;
        let clock = MemClock::new(vec![in alloc; NOON]?);
        let link = MemLink::new(
            exchange.input,
            Vec::new(alloc),
            Vec::new(alloc),
            Vec::new(alloc),
        );
        Ok(Talk {
            link,
            clock,
            wanted: exchange.output,
        })
    }

    /// An error where something else was written.
    pub fn compare(&self, alloc: Global) -> Result<()> {
        same_bytes(alloc, "it", self.link.output(), &self.wanted)
    }
}
