//! What a session must be written, line by line.

use crate::words::{Line, add_texts, number_of};
use anyhow::Result;

/// Appends what a line of a row wants of an element of this name; false where the word is none of these.
pub fn add_wanted(sid: &str, word: &str, rest: &str, into: &mut Vec<u8>) -> Result<bool> {
    let added = match word {
        "want" => add_line(sid, rest, into),
        "compld" => add_completed(sid, rest, into),
        "compldx" => add_often(sid, rest, into),
        "deny" => add_denied(sid, rest, into),
        "rows" => add_rows(sid, rest, into),
        "report" => add_told(sid, rest, into),
        _ => return Ok(false),
    };
    added?;
    Ok(true)
}

/// Appends the header of the fixed clock, and these texts after it.
pub fn add_message(sid: &str, texts: &[&str], into: &mut Vec<u8>) -> Result<()> {
    add_texts(&["\r\n\n   ", sid, " 26-03-01 12:00:00\r\n"], into)?;
    add_texts(texts, into)
}

// Appends a line: H is a header, ; and > are themselves, any other line ends in CR LF.
fn add_line(sid: &str, line: &str, into: &mut Vec<u8>) -> Result<()> {
    match line {
        "H" => add_message(sid, &[], into),
        ";" | ">" => add_texts(&[line], into),
        _ => add_texts(&[line, "\r\n"], into),
    }
}

/// Appends a response COMPLD with no text.
pub fn add_completed(sid: &str, tag: &str, into: &mut Vec<u8>) -> Result<()> {
    add_message(sid, &["M  ", tag, " COMPLD\r\n;"], into)
}

/// Appends so many responses COMPLD of one tag.
pub fn add_times_completed(sid: &str, count: u64, tag: &str, into: &mut Vec<u8>) -> Result<()> {
    for _ in 0..count {
        add_completed(sid, tag, into)?;
    }
    Ok(())
}

// The same, as many as the text's first word says.
fn add_often(sid: &str, rest: &str, into: &mut Vec<u8>) -> Result<()> {
    let line = Line::of(rest);
    add_times_completed(sid, number_of(line.word)?, line.rest, into)
}

// Appends a denial; its tag, its code and its text are parted by blanks.
fn add_denied(sid: &str, rest: &str, into: &mut Vec<u8>) -> Result<()> {
    let tag = Line::of(rest);
    let code = Line::of(tag.rest);
    let text = code.rest;
    add_message(
        sid,
        &[
            "M  ",
            tag.word,
            " DENY\r\n   ",
            code.word,
            "\r\n   /* ",
            text,
            " */\r\n;",
        ],
        into,
    )
}

// Appends a report; its number stands in front of its text.
fn add_told(sid: &str, rest: &str, into: &mut Vec<u8>) -> Result<()> {
    let line = Line::of(rest);
    add_report(sid, line.word, line.rest, into)
}

/// Appends a report of this number.
pub fn add_report(sid: &str, number: &str, text: &str, into: &mut Vec<u8>) -> Result<()> {
    add_message(
        sid,
        &["A  ", number, " REPT DBCHG\r\n   \"", text, "\"\r\n;"],
        into,
    )
}

// Appends a response COMPLD with rows, which stand after its tag.
fn add_rows(sid: &str, rest: &str, into: &mut Vec<u8>) -> Result<()> {
    let tag = Line::of(rest);
    add_message(sid, &["M  ", tag.word, " COMPLD\r\n"], into)?;
    for row in tag.rest.split(' ') {
        add_texts(&["   \"", row, "\"\r\n"], into)?;
    }
    into.push(b';')?;
    Ok(())
}
