//! What somebody at a link sends, and what he must be written.
use crate::blocks::add_blocks;
use crate::entries::Entries;
use crate::exchange::Exchange;
use crate::part::Part;
use crate::wanted::add_times_completed;
use crate::words::{Line, add_hex, add_texts, byte};
use anyhow::Result;
use std::alloc::Global;

/// What these lines say, for an element of this name.
pub fn exchange_of(alloc: Global, sid: &str, part: Part<'_, '_>) -> Result<Exchange> {
    let mut exchange = Exchange::new(alloc);
    take_lines(alloc, sid, part, &mut exchange)?;
    Ok(exchange)
}

fn take_lines(alloc: Global, sid: &str, part: Part<'_, '_>, exchange: &mut Exchange) -> Result<()> {
    for line in part.lines {
        take_line(alloc, sid, part, *line, exchange)?;
    }
    if let Some(count) = part.number_at("messages")? {
        let end = end_of(&exchange.output, count);
        exchange.output.truncate(end);
    }
    if let Some(count) = part.number_at("bytes")? {
        exchange.output.truncate(count as usize);
    }
    Ok(())
}

fn take_line(
    alloc: Global,
    sid: &str,
    part: Part<'_, '_>,
    line: Line<'_>,
    exchange: &mut Exchange,
) -> Result<()> {
    match line.word {
        "byte" => add_byte(part, line.rest, &mut exchange.input),
        "sent" => add_hex(line.rest, &mut exchange.output),
        "enters" => enter(alloc, sid, Entries::of(line.rest)?, exchange),
        "retrieves" => retrieve(alloc, sid, Entries::of(line.rest)?, exchange),
        "lists" => Entries::of(line.rest)?.add_all(alloc, "", ":1WAY\n", &mut exchange.output),
        _ => {
            let _ = exchange.take(sid, line.word, line.rest)?;
            Ok(())
        }
    }
}

fn add_byte(part: Part<'_, '_>, text: &str, into: &mut Vec<u8>) -> Result<()> {
    let byte = byte(part.number_in(text)?)?;
    into.push(byte)?;
    Ok(())
}

fn enter(alloc: Global, sid: &str, entries: Entries, exchange: &mut Exchange) -> Result<()> {
    entries.add_all(alloc, "ENT-CRS-T0::", ":1;", &mut exchange.input)?;
    add_times_completed(sid, entries.count as u64, "1", &mut exchange.output)
}

fn retrieve(alloc: Global, sid: &str, entries: Entries, exchange: &mut Exchange) -> Result<()> {
    add_texts(&["RTRV-CRS-T0:::1;"], &mut exchange.input)?;
    add_blocks(alloc, sid, entries, &mut exchange.output)
}

// Where the message of that number ends, from 1, by the first semicolon in it; 0 is in front of all.
fn end_of(output: &[u8], count: u64) -> usize {
    let mut left = count;
    for (at, byte) in output.iter().enumerate() {
        if left == 0 {
            return at;
        }
        if *byte == b';' {
            left -= 1;
        }
    }
    output.len()
}
