//! What the lines of a row say.

use anyhow::{Context, Result};
use std::alloc::Global;
use worked_common::{Line, Part, add_texts, decimal, frame_of, same_bytes};

/// The words with which a line may begin.
pub const WORDS: [&str; 30] = [
    "row", "part", "use", "session", "shelf", "workers", "old", "shown", "torn", "held", "send",
    "fill", "login", "stop", "fails", "shows", "adopts", "strange", "compld", "compldx", "deny",
    "rows", "report", "want", "asked", "calls", "frames", "last", "by", "words",
];

/// The lines of a row, with those of a part in place of a line that uses it.
pub fn spelled_out<'a>(
    alloc: Global,
    row: Part<'_, 'a>,
    parts: &[Part<'_, 'a>],
) -> Result<Vec<Line<'a>>> {
    let mut all = Vec::new(alloc);
    for line in row.lines {
        if line.word == "use" {
            add_part(parts, line.rest, &mut all)?;
        } else {
            all.push(*line)?;
        }
    }
    Ok(all)
}

fn add_part<'a>(parts: &[Part<'_, 'a>], name: &str, into: &mut Vec<Line<'a>>) -> Result<()> {
    for part in parts {
        if is_named(*part, name) {
            into.extend_from_slice(part.lines)?;
            return Ok(());
        }
    }
    None.context("no part has that name")
}

// Whether its first line says so. The part that all rows stand in is passed over by one look.
fn is_named(part: Part<'_, '_>, name: &str) -> bool {
    match part.lines.first() {
        Some(head) => head.rest == name,
        None => false,
    }
}

/// The frames that stand behind the word.
pub fn frames_said(alloc: Global, session: Part<'_, '_>, word: &str) -> Result<Vec<Vec<u8>>> {
    let mut frames = Vec::new(alloc);
    if let Some(text) = session.last(word) {
        for frame in text.split(' ') {
            frames.push(frame_of(alloc, frame)?)?;
        }
    }
    Ok(frames)
}

/// An error where other numbers stand after the word.
pub fn same_as_said(
    alloc: Global,
    session: Part<'_, '_>,
    word: &str,
    numbers: &[u64],
) -> Result<()> {
    let Some(wanted) = session.last(word) else {
        return Ok(());
    };
    let mut text = Vec::new(alloc);
    for number in numbers {
        if !text.is_empty() {
            add_texts(&[" "], &mut text)?;
        }
        add_texts(&[decimal(alloc, *number)?.as_str()], &mut text)?;
    }
    same_bytes(alloc, word, &text, wanted.as_bytes())
}
