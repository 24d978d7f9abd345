ghost use Rattle.std.specs.Prelude.{◌≡◌, ◌-◌, ◌≤◌, [], true, false, IfOk, length, take, drop};

use std::alloc::{AllocError, Global};
use std::marker::Model;

/// The least room.
const BLOCK: usize = 4096;

/// The most room, in blocks.
const MOST_BLOCKS: u64 = 32;

/// So many bytes of room are cleared at a time: the system's library clears more by a string instruction, which counts as one a byte.
const PIECE: usize = 1024;

/// The bytes of a file from a place on, as they were read last. Their room is taken once, when the file is opened: as much as the file has
/// bytes, but at most 128 KiB, so that a start takes few calls of the system for a whole journal. All but a block of it is given back as
/// soon as the bytes are dropped.
#[derive(Drop)]
pub(crate) struct Window {
    at: u64,
    count: usize,
    bytes: Vec<u8>,
}

impl Model for Window {
    ghost use Rattle.std.specs.Prelude.{◌≤◌, take, vec_len};
    ghost use Rattle.dxc_disk.specs.Windows.{Ahead};

    ghost Value = { Ahead };

    ghost view = { λ w. record { at = w.at; bytes = take w.count w.bytes.items } };

    ghost invariant = { λ w. w.count ≤ vec_len w.bytes };
}

impl Window {
    /// Of a file of that length, with nothing in it.
    pub(crate) fn new(alloc: Global, length: u64) -> Result<Window, AllocError>
        ensures { IfOk result (λ w. w.bytes ≡ []) }
    {
        let blocks = (length / BLOCK as u64 + 1).min(MOST_BLOCKS) as usize;
        let room = blocks * BLOCK;
        let mut bytes = Vec::with_capacity(alloc, room)?;
        for i in 0..room / PIECE {
            bytes.resize((i + 1) * PIECE, 0)?;
        }
        Ok(Window {
            at: 0,
            count: 0,
            bytes,
        })
    }

    /// How many bytes have room.
    pub(crate) fn room(&self) -> usize {
        self.bytes.len()
    }

    /// Copies these bytes, where it holds them all.
    #[inline(always)]
    pub(crate) fn gives(&self, at: u64, into: &mut [u8]) -> bool
        ensures given { result ≡ true → (self.now.at ≤ at)
            × (into.new ≡ take (length into.old) (drop (at - self.now.at) self.now.bytes)) }
        ensures kept { result ≡ false → into.new ≡ into.old }
    {
        let Some(from) = at.checked_sub(self.at) else {
            return false;
        };
        let held = &self.bytes[..self.count];
        match held.get(from as usize..) {
            Some(held) if into.len() <= held.len() => {
                into.copy_from_slice(&held[..into.len()]);
                true
            }
            _ => false,
        }
    }

    /// Takes what one call of the system gives of the file from a place on. False where that failed; then it holds nothing.
    pub(crate) fn fill(&mut self, file: i32, at: u64) -> bool
        ensures place { result ≡ true → self.new.at ≡ at }
        ensures nothing { result ≡ false → self.new.bytes ≡ [] }
    {
        self.count = 0;
        let got = libc::pread(file, self.bytes.as_mut_slice(), at.cast_signed());
        let Ok(count) = usize::try_from(got) else {
            return false;
        };
        self.at = at;
        self.count = count;
        true
    }

    /// Drops what it holds.
    #[inline(always)]
    pub(crate) fn clear(&mut self)
        ensures { self.new.bytes ≡ [] }
    {
        if self.count > 0 {
            self.drop_all();
        }
    }

    // Apart, since it holds nothing at most writes.
    #[inline(never)]
    fn drop_all(&mut self)
        ensures { self.new.bytes ≡ [] }
    {
        self.count = 0;
        self.bytes.truncate(BLOCK);
        self.bytes.shrink_to_fit();
    }
}
