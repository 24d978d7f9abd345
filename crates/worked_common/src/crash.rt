use crate::torn::{Torn, overwrite};
use std::alloc::{AllocError, Global};

/// A write that no sync came after, and what it wrote over.
#[derive(Drop)]
struct Write {
    at: usize,
    bytes: Vec<u8>,
    over: Vec<u8>,
    /// How many bytes the disk had.
    length: usize,
}

/// A crash that comes once a disk is dropped: it leaves this of the writes since the last sync.
#[derive(Drop)]
pub struct Crash {
    left: Torn,
    alloc: Global,
    writes: Vec<Write>,
}

impl Crash {
    pub fn new(alloc: Global, left: Torn) -> Crash {
        Crash {
            left,
            alloc,
            writes: Vec::new(alloc),
        }
    }

    /// Notes a write on a disk that holds this.
    pub fn note(&mut self, held: &[u8], at: usize, bytes: &[u8]) -> Result<(), AllocError> {
        let end = at.saturating_add(bytes.len()).min(held.len());
        let over = held.get(at..end).unwrap_or(&[]);
        self.writes.push(Write {
            at,
            bytes: copy_of(self.alloc, bytes)?,
            over: copy_of(self.alloc, over)?,
            length: held.len(),
        })?;
        Ok(())
    }

    /// What was written is on the disk.
    pub fn sync(&mut self) {
        self.writes.clear();
    }

    /// Leaves what the crash leaves.
    pub fn come(&self, held: &mut Vec<u8>) -> Result<(), AllocError> {
        for write in self.writes.iter().rev() {
            overwrite(held, write.at, &write.over)?;
            held.truncate(write.length);
        }
        for write in &self.writes {
            self.left.leave(held, write.at, &write.bytes)?;
        }
        Ok(())
    }
}

/// A copy, made as a whole: files of two areas are copied for each of a thousand runs.
pub fn copy_of(alloc: Global, bytes: &[u8]) -> Result<Vec<u8>, AllocError> {
    let mut copy = Vec::new(alloc);
    copy.extend_from_slice(bytes)?;
    Ok(copy)
}
