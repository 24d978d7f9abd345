use crate::written::written_otherwise;
use anyhow::{Error, Result};
use std::alloc::Global;

/// An error where somebody was written otherwise than he must be.
pub fn same_bytes(alloc: Global, who: &str, written: &[u8], wanted: &[u8]) -> Result<()> {
    match written_otherwise(alloc, who, written, wanted)? {
        Some(why) => Err(Error::msg(why)),
        None => Ok(()),
    }
}

/// What a run did otherwise than it must, which ended with this error.
pub fn why_of(alloc: Global, ended: Result<()>) -> Result<Option<String>> {
    match ended {
        Ok(()) => Ok(None),
        Err(why) => Ok(Some(why.to_string(alloc)?)),
    }
}
