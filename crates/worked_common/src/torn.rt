use anyhow::{Context, Result};
use std::alloc::AllocError;

/// A byte that no seal is, and the one that is.
const OTHER: u8 = 0x5A;

const SEAL: u8 = 0xA5;

/// What comes of the bytes of a write that fails, or that no sync came after.
#[derive(Clone, Copy)]
pub enum Torn {
    Lost,
    Whole,
    /// Its first half.
    Front,
    /// Its range holds other bytes.
    Other,
    /// Its range is filled with the byte that seals.
    Sealed,
}

impl Torn {
    /// What the word says: `lost`, `whole`, `front`, `other` or `sealed`.
    pub fn of(word: &str) -> Result<Torn> {
        match word {
            "lost" => Ok(Torn::Lost),
            "whole" => Ok(Torn::Whole),
            "front" => Ok(Torn::Front),
            "other" => Ok(Torn::Other),
            "sealed" => Ok(Torn::Sealed),
            _ => None.context("nothing else comes of a failed write"),
        }
    }

    /// Leaves this of a write.
    pub fn leave(self, held: &mut Vec<u8>, at: usize, bytes: &[u8]) -> Result<(), AllocError> {
        match self {
            Torn::Lost => Ok(()),
            Torn::Whole => overwrite(held, at, bytes),
            Torn::Front => overwrite(held, at, &bytes[..bytes.len() / 2]),
            Torn::Other => fill(held, at, bytes.len(), OTHER),
            Torn::Sealed => fill(held, at, bytes.len(), SEAL),
        }
    }
}

/// Writes the bytes there; what is lacking in front of them is filled with zeros.
pub fn overwrite(held: &mut Vec<u8>, at: usize, bytes: &[u8]) -> Result<(), AllocError> {
    let Some(end) = at.checked_add(bytes.len()) else {
        return Err(AllocError);
    };
    if held.len() < end {
        held.resize(end, 0)?;
    }
    held[at..end].copy_from_slice(bytes);
    Ok(())
}

// Writes so many times this byte there.
fn fill(held: &mut Vec<u8>, at: usize, count: usize, byte: u8) -> Result<(), AllocError> {
    let end = at.saturating_add(count);
    if held.len() < end {
        held.resize(end, 0)?;
    }
    held[at..end].fill(byte);
    Ok(())
}
