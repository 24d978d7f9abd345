ghost use Rattle.std.specs.Prelude.{◌≤◌, ◌<◌, length, IfSome};

use crate::changes::Changes;
use crate::held::Held;
use std::alloc::{AllocError, Global};
use std::io::{ErrorKind, Write};

/// So many bytes have room: some hundred answers.
const ROOM: usize = 1 << 14;

/// Bytes that are collected on their way to a writer, so that one call of the system takes many answers. What is written after a
/// change's way to a journal may be its answer: it goes out at once, so that no more than one change at a time is made and not answered.
#[derive(Drop)]
pub(crate) struct Outbox {
    held: Held,
    changes: Changes,
    seen: u64,
}

impl Outbox {
    pub(crate) fn new(alloc: Global, changes: Changes) -> Result<Outbox, AllocError> {
        let held = Held::new(alloc, ROOM)?;
        Ok(Outbox {
            held,
            changes,
            seen: 0,
        })
    }

    /// Holds bytes that may wait and have room; others go out after what is held. How many were taken; None where a write failed.
    #[inline(always)]
    pub(crate) fn write<W: Write>(
        &mut self,
        to: &mut W,
        from: &[u8],
        may_wait: bool,
    ) -> Option<usize>
        requires { 0 < length from.now }
        ensures { IfSome result (λ count. (1 ≤ count) × (count ≤ length from.now)) }
    {
        if may_wait && self.changes.count() == self.seen && self.held.put(from) {
            return Some(from.len());
        }
        self.write_behind(to, from, may_wait)
    }

    // Apart, since most bytes may wait and have room.
    #[inline(never)]
    fn write_behind<W: Write>(&mut self, to: &mut W, from: &[u8], may_wait: bool) -> Option<usize>
        requires { 0 < length from.now }
        ensures { IfSome result (λ count. (1 ≤ count) × (count ≤ length from.now)) }
    {
        let count = self.changes.count();
        let is_due = !may_wait || self.seen != count;
        if self.held.count() > 0 {
            // One call takes both where there is room.
            let is_put = is_due && self.held.put(from);
            if !self.empty(to) {
                return None;
            }
            if is_put {
                self.seen = count;
                return Some(from.len());
            }
        }
        if !is_due && self.held.put(from) {
            return Some(from.len());
        }
        let taken = some_of(to, from);
        // What one call left of an answer isn't held either.
        if taken == Some(from.len()) {
            self.seen = count;
        }
        taken
    }

    /// Writes out what is held. False where that failed; then too nothing is held any more.
    pub(crate) fn empty<W: Write>(&mut self, to: &mut W) -> bool {
        if self.held.count() == 0 {
            return true;
        }
        let is_written = write_whole(to, self.held.bytes());
        self.held.clear();
        is_written
    }
}

// How many of the bytes one call took.
fn some_of<W: Write>(to: &mut W, from: &[u8]) -> Option<usize>
    ensures { IfSome result (λ count. (1 ≤ count) × (count ≤ length from.now)) }
{
    match to.write(from) {
        Ok(count) if count > 0 => Some(count),
        _ => None,
    }
}

// Mostly one call takes all; std's own loop is for what one didn't.
fn write_whole<W: Write>(to: &mut W, bytes: &[u8]) -> bool {
    match to.write(bytes) {
        Ok(count) if count == bytes.len() => true,
        Ok(count) if count > 0 => to.write_all(&bytes[count..]).is_ok(),
        Err(error) if error.kind() == ErrorKind::Interrupted => to.write_all(bytes).is_ok(),
        _ => false,
    }
}
