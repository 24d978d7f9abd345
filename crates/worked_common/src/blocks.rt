//! The blocks of a response with many rows.
use crate::entries::Entries;
use crate::wanted::add_message;
use anyhow::Result;
use std::alloc::Global;

/// The most bytes of a block.
const MOST: usize = 4_096;

/// Adds a response COMPLD of tag 1 with a row 1WAY for each connection, in as many blocks as it takes: each has as many rows as fit into it with its
/// ending byte.
pub fn add_blocks(alloc: Global, sid: &str, entries: Entries, into: &mut Vec<u8>) -> Result<()> {
    let mut row = Vec::new(alloc);
    let mut block = into.len();
    begin(sid, into)?;
    for port in 0..entries.count {
        row.clear();
        entries.add(alloc, port, "   \"", ":1WAY\"\r\n", &mut row)?;
        add_row(sid, &row, &mut block, into)?;
    }
    into.push(b';')?;
    Ok(())
}

fn begin(sid: &str, into: &mut Vec<u8>) -> Result<()> {
    add_message(sid, &["M  1 COMPLD\r\n"], into)
}

// Adds a row to the block that begins there, or to another one where it doesn't fit.
fn add_row(sid: &str, row: &[u8], block: &mut usize, into: &mut Vec<u8>) -> Result<()> {
    let length = into.len().saturating_sub(*block);
    if length.saturating_add(row.len()) >= MOST {
        into.push(b'>')?;
        *block = into.len();
        begin(sid, into)?;
    }
    into.extend_from_slice(row)?;
    Ok(())
}
