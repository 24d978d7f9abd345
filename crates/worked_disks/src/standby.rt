use anyhow::{Context, Result};
use dxc_disk::Disk;
use dxc_outside::{Link, MemLink};
use standby_link::serve_standby;
use std::alloc::Global;
use std::sync::Arc;
use worked_common::{
    Exchange, Levers, Part, RowDisk, Torn, bytes_in, bytes_otherwise, copy_of, decimal, disk_of,
    exchange_of, joined, left_by, number_of, spelled, two, written_otherwise,
};

/// How a standby ended, its file, and what it sent.
#[derive(Drop)]
pub struct Served {
    pub end: String,
    pub file: Vec<u8>,
    pub sent: Vec<u8>,
}

/// The disk that the lines tell.
pub fn disk_in(alloc: Global, row: Part<'_, '_>, levers: &Arc<Levers>) -> Result<RowDisk> {
    let held = bytes_in(alloc, row.last("old").unwrap_or(""))?;
    disk_of(alloc, row, held, Torn::Lost, levers)
}

/// Serves a standby over the link, on that disk.
pub fn serve(alloc: Global, row: Part<'_, '_>, link: MemLink) -> Result<Served> {
    let levers = Levers::new(alloc).ok().context("no memory")?;
    let mut link = link;
    let end = end_on(alloc, disk_in(alloc, row, &levers)?, &mut link)?;
    Ok(Served {
        end,
        file: left_by(alloc, &levers)?,
        sent: copy_of(alloc, link.output())?,
    })
}

// How it ended. Where it is dropped the disk leaves what it holds.
fn end_on<D: Disk + Drop, K: Link>(alloc: Global, disk: D, link: &mut K) -> Result<String> {
    let mut disk = disk;
    let end = serve_standby(link, &mut disk);
    spelled(alloc, &end)
}

/// What a standby does otherwise than it must, with its input cut after some byte or whole.
pub fn standby_otherwise(alloc: Global, row: Part<'_, '_>) -> Result<Option<String>> {
    let exchange = exchange_of(alloc, "", row)?;
    for cut in 0..=exchange.input.len() {
        let why = cut_otherwise(alloc, row, &exchange, cut)?;
        if let Some(why) = why {
            let cut = decimal(alloc, cut as u64)?;
            let texts = ["of ", cut.as_str(), " bytes ", why.as_str()];
            return Ok(Some(joined(alloc, &texts)?));
        }
    }
    Ok(None)
}

// The same with the input cut after so many bytes.
fn cut_otherwise(
    alloc: Global,
    row: Part<'_, '_>,
    exchange: &Exchange,
    cut: usize,
) -> Result<Option<String>> {
    let input = exchange.input.as_slice();
    let link = MemLink::new(
        copy_of(alloc, input.get(..cut).unwrap_or(input))?,
        exchange.pieces.clone()?,
        row.failing(alloc, "link")?,
        Vec::new(alloc),
    );
    let served = serve(alloc, row, link)?;
    served_otherwise(alloc, mark_at(row, cut as u64)?, &served)
}

// What the last line says that is of so many bytes or fewer.
fn mark_at<'a>(row: Part<'_, 'a>, cut: u64) -> Result<&'a str> {
    for line in row.lines.iter().rev() {
        if line.word == "at" {
            let (from, rest) = two(line.rest)?;
            if number_of(from)? <= cut {
                return Ok(rest);
            }
        }
    }
    None.context("no line tells")
}

// What isn't as the mark tells: `END FILE SENT`, where - stands for no bytes.
fn served_otherwise(alloc: Global, mark: &str, served: &Served) -> Result<Option<String>> {
    let (end, rest) = two(mark)?;
    let (file, sent) = two(rest)?;
    let why = written_otherwise(alloc, "the end", served.end.as_bytes(), end.as_bytes())?;
    if why.is_some() {
        return Ok(why);
    }
    let why = marked_otherwise(alloc, "the file", &served.file, file)?;
    if why.is_some() {
        return Ok(why);
    }
    marked_otherwise(alloc, "what it sent", &served.sent, sent)
}

// What bytes are otherwise than the digits say.
fn marked_otherwise(
    alloc: Global,
    what: &str,
    found: &[u8],
    digits: &str,
) -> Result<Option<String>> {
    let wanted = bytes_in(alloc, digits.strip_prefix("-").unwrap_or(digits))?;
    bytes_otherwise(alloc, what, found, &wanted)
}
