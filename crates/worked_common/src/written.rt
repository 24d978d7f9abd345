use crate::words::{decimal, joined};
use anyhow::Result;
use std::alloc::Global;

/// What a text is, or what somebody was written, otherwise than it must be.
pub fn written_otherwise(
    alloc: Global,
    what: &str,
    written: &[u8],
    wanted: &[u8],
) -> Result<Option<String>> {
    if written == wanted {
        return Ok(None);
    }
    let text = String::from_utf8_lossy(alloc, written)?;
    Ok(Some(joined(alloc, &[what, " was ", text.as_str()])?))
}

/// What a number is otherwise than it must be.
pub fn number_otherwise(
    alloc: Global,
    what: &str,
    number: u64,
    wanted: u64,
) -> Result<Option<String>> {
    if number == wanted {
        return Ok(None);
    }
    let number = decimal(alloc, number)?;
    Ok(Some(joined(alloc, &[what, " was ", number.as_str()])?))
}
