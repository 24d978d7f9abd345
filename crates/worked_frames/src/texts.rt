//! The files of the rows.

use anyhow::Result;
use std::fs;

/// All parts and then all rows. A part without a name stands between them, so that no other has lines of rows.
pub fn text_of(rt: &HostRuntime) -> Result<String> {
    let mut text = String::new(rt.alloc());
    add_files(rt, &["parts.txt", "points.txt"], &mut text)?;
    text.push_str("part\n")?;
    add_files(rt, &["rows.txt", "stops.txt"], &mut text)?;
    Ok(text)
}

fn add_files(rt: &HostRuntime, names: &[&str], text: &mut String) -> Result<()> {
    for name in names {
        text.push_str(&fs::read_to_string(rt, name)?)?;
    }
    Ok(())
}
