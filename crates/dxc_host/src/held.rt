ghost use Rattle.std.specs.Prelude.{◌≡◌, ◌+◌, ◌≤◌, IfOk, length};

use std::alloc::{AllocError, Global};
use std::fs::File;
use std::io::{self, Read};
use std::marker::Model;

/// Bytes on their way into a stream or out of it, in room that is taken once. Contracts see how many there are.
#[derive(Drop)]
pub(crate) struct Held {
    bytes: Vec<u8>,
    start: usize,
    count: usize,
}

impl Model for Held {
    ghost use Rattle.std.specs.Prelude.{ℕ, ◌+◌, ◌≤◌, vec_len};

    ghost Value = { ℕ };

    ghost view = { λ h. h.count };

    ghost invariant = { λ h. h.start + h.count ≤ vec_len h.bytes };
}

impl Held {
    /// So many bytes have room.
    pub(crate) fn new(alloc: Global, room: usize) -> Result<Held, AllocError> {
        let bytes = Vec::from_elem(alloc, 0, room)?;
        Ok(Held {
            bytes,
            start: 0,
            count: 0,
        })
    }

    pub(crate) fn count(&self) -> usize
        ensures { result ≡ self.now }
    {
        self.count
    }

    pub(crate) fn bytes(&self) -> &[u8] {
        &self.bytes[self.start..self.start + self.count]
    }

    /// Takes the first bytes out.
    pub(crate) fn take(&mut self, into: &mut [u8])
        requires { length into.old ≤ self.old }
    {
        let end = self.start + into.len();
        into.copy_from_slice(&self.bytes[self.start..end]);
        self.count -= into.len();
        self.start = end;
    }

    /// Puts the bytes after those that are there; false where they have no room.
    pub(crate) fn put(&mut self, from: &[u8]) -> bool {
        let end = self.start + self.count;
        if from.len() > self.bytes.len() - end {
            return false;
        }
        self.bytes[end..end + from.len()].copy_from_slice(from);
        self.count += from.len();
        true
    }

    /// Drops all.
    pub(crate) fn clear(&mut self) {
        self.count = 0;
        self.start = 0;
    }

    /// Reads as many more bytes as one call gives; how many came. 0: there are no more, or no room.
    pub(crate) fn read_more(&mut self, file: &mut File) -> io::Result<usize>
        ensures { IfOk result (λ n. self.new ≡ self.old + n) }
    {
        let end = self.start + self.count;
        self.bytes.as_mut_slice().copy_within(self.start..end, 0);
        self.start = 0;
        let more = file.read(&mut self.bytes[self.count..])?;
        self.count += more;
        Ok(more)
    }
}
