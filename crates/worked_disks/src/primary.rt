use crate::standby::{disk_in, serve};
use anyhow::{Result, ensure};
use dxc_disk::Disk;
use dxc_outside::{Link, MemLink};
use standby_link::{Mirror, MirrorDisk};
use std::alloc::Global;
use worked_common::{
    Due, Line, Part, RowDisk, bytes_in, bytes_otherwise, joined, left_by, link_of, number_of,
    spelled, two, written_otherwise,
};

/// What a primary does otherwise than it must.
pub fn primary_otherwise(alloc: Global, row: Part<'_, '_>) -> Result<Option<String>> {
    let mut due = Due::new(alloc)?;
    let copy = bytes_in(alloc, row.last("copy").unwrap_or(""))?;
    let why = calls_otherwise(alloc, row, &copy, &mut due)?;
    if why.is_some() {
        return Ok(why);
    }
    let why = due.written_otherwise(alloc)?;
    if why.is_some() {
        return Ok(why);
    }
    let copied = copy_by(alloc, bytes_in(alloc, row.last("sent").unwrap_or(""))?)?;
    bytes_otherwise(alloc, "the copy", &copied, &copy)
}

// What is otherwise than the lines' calls say, and where the standby is joined to the end, than its own file must be. All that is lent is dropped, and
// leaves what it holds.
fn calls_otherwise(
    alloc: Global,
    row: Part<'_, '_>,
    copy: &[u8],
    due: &mut Due,
) -> Result<Option<String>> {
    let (why, is_joined) = called(alloc, row, due)?;
    if why.is_some() || !is_joined {
        return Ok(why);
    }
    let file = left_by(alloc, &due.journal)?;
    bytes_otherwise(alloc, "its own file", &file, copy)
}

// What is otherwise than the lines' calls say, and whether the standby is joined to the end.
fn called(alloc: Global, row: Part<'_, '_>, due: &mut Due) -> Result<(Option<String>, bool)> {
    let link = link_of(alloc, "", row, "the standby", due)?;
    let mut mirror = MirrorDisk::join(alloc, disk_in(alloc, row, &due.journal)?, link);
    let why = lines_otherwise(alloc, row, &mut mirror)?;
    Ok((why, mirror.mirror() == Mirror::Joined))
}

fn lines_otherwise<K: Link>(
    alloc: Global,
    row: Part<'_, '_>,
    mirror: &mut MirrorDisk<RowDisk, K>,
) -> Result<Option<String>> {
    for line in row.lines {
        let why = line_otherwise(alloc, mirror, *line)?;
        if why.is_some() {
            return Ok(why);
        }
    }
    Ok(None)
}

// What a new standby's file becomes by these bytes.
fn copy_by(alloc: Global, sent: Vec<u8>) -> Result<Vec<u8>> {
    let link = MemLink::new(sent, Vec::new(alloc), Vec::new(alloc), Vec::new(alloc));
    let nothing = Part {
        lines: &[],
        number: 0,
    };
    Ok(serve(alloc, nothing, link)?.file)
}

// Makes the call that a line tells, and what comes of it otherwise.
fn line_otherwise<K: Link>(
    alloc: Global,
    mirror: &mut MirrorDisk<RowDisk, K>,
    line: Line<'_>,
) -> Result<Option<String>> {
    let (is_ok, rest) = match line.word {
        "joins" => (true, line.rest),
        "write" => write(alloc, mirror, line.rest)?,
        "sync" => (mirror.sync().is_ok(), line.rest),
        _ => return Ok(None),
    };
    let (answer, stands) = two(rest)?;
    if is_ok != (answer == "ok") {
        return Ok(Some(joined(alloc, &["a call was answered otherwise"])?));
    }
    let stood = spelled(alloc, &mirror.mirror())?;
    written_otherwise(alloc, "it", stood.as_bytes(), stands.as_bytes())
}

// Writes what the text tells; whether that was answered, and the text after it.
fn write<'a, K: Link>(
    alloc: Global,
    mirror: &mut MirrorDisk<RowDisk, K>,
    text: &'a str,
) -> Result<(bool, &'a str)> {
    let (place, rest) = two(text)?;
    let (digits, rest) = two(rest)?;
    let place = number_of(place)?;
    let bytes = bytes_in(alloc, digits)?;
    ensure!(bytes.len() <= 4096, "more than one write takes");
    Ok((mirror.write_at(place, &bytes).is_ok(), rest))
}
