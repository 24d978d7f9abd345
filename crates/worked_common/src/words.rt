//! What a line of a row is made of. Programs take apart and put together texts by these calls alone: what stands after them is then proved once.

use anyhow::{Context, Result, bail, ensure};
use std::alloc::Global;
use std::fmt::Debug;

/// A line of a row: its first word and what stands after it, which may be nothing.
#[derive(Clone, Copy)]
pub struct Line<'a> {
    pub word: &'a str,
    pub rest: &'a str,
}

impl<'a> Line<'a> {
    pub fn of(line: &'a str) -> Line<'a> {
        let (word, rest) = line.split_once(' ').unwrap_or((line, ""));
        Line { word, rest }
    }
}

/// The lines of the text that say something: they aren't empty, and don't begin with #.
pub fn lines_of<'a>(alloc: Global, text: &'a str) -> Result<Vec<Line<'a>>> {
    let mut lines = Vec::new(alloc);
    for line in text.split('\n') {
        if !line.is_empty() && !line.starts_with('#') {
            lines.push(Line::of(line))?;
        }
    }
    Ok(lines)
}

/// The text in front of the first blank and that after it.
pub fn two(text: &str) -> Result<(&str, &str)> {
    text.split_once(' ').context("two words are wanted")
}

/// The number that the text spells.
pub fn number_of(text: &str) -> Result<u64> {
    Ok(text.parse::<u64>()?)
}

/// The number, where it is below 65,536.
pub fn small(number: u64) -> Result<u16> {
    ensure!(number < 65_536, "the number is too great");
    Ok(number as u16)
}

/// The number, where it is a byte.
pub fn byte(number: u64) -> Result<u8> {
    ensure!(number < 256, "a byte is wanted");
    Ok(number as u8)
}

/// The number below 65,536 that the text spells.
pub fn small_of(text: &str) -> Result<u16> {
    small(number_of(text)?)
}

/// Two numbers: the modules of an element and the slots of each.
pub fn shape_of(text: &str) -> Result<(u16, u16)> {
    let (modules, slots) = two(text)?;
    Ok((small_of(modules)?, small_of(slots)?))
}

/// The number in decimal digits.
pub fn decimal(alloc: Global, number: u64) -> Result<String> {
    Ok(number.to_string(alloc)?)
}

/// The texts one after the other.
pub fn joined(alloc: Global, texts: &[&str]) -> Result<String> {
    let mut all = String::new(alloc);
    push_texts(texts, &mut all)?;
    Ok(all)
}

/// Appends the texts one after the other.
pub fn push_texts(texts: &[&str], into: &mut String) -> Result<()> {
    for text in texts {
        into.push_str(text)?;
    }
    Ok(())
}

/// The bytes of the texts one after the other.
pub fn add_texts(texts: &[&str], into: &mut Vec<u8>) -> Result<()> {
    for text in texts {
        into.extend_from_slice(text.as_bytes())?;
    }
    Ok(())
}

/// The bytes that the hexadecimal digits spell; blanks between them fall away.
pub fn bytes_of(alloc: Global, text: &str) -> Result<Vec<u8>> {
    let mut bytes = Vec::new(alloc);
    add_hex(text, &mut bytes)?;
    Ok(bytes)
}

/// Appends these bytes.
pub fn add_hex(text: &str, into: &mut Vec<u8>) -> Result<()> {
    let mut high = None;
    for digit in text.as_bytes() {
        if *digit != b' ' {
            high = add_digit(*digit, high, into)?;
        }
    }
    ensure!(high.is_none(), "half a byte");
    Ok(())
}

// Appends a byte where this is its second digit. Its first digit else.
fn add_digit(digit: u8, high: Option<u8>, into: &mut Vec<u8>) -> Result<Option<u8>> {
    let value = match digit {
        b'0'..=b'9' => digit - b'0',
        b'a'..=b'f' => digit - b'a' + 10,
        b'A'..=b'F' => digit - b'A' + 10,
        _ => bail!("no hexadecimal bytes"),
    };
    let Some(high) = high else {
        return Ok(Some(value));
    };
    into.push(high << 4 | value)?;
    Ok(None)
}

/// The hexadecimal digits of the bytes.
pub fn hex_of(alloc: Global, bytes: &[u8]) -> Result<String> {
    Ok(hex::encode(alloc, bytes)?)
}

/// The byte that goes out where nothing is connected.
pub const IDLE: u8 = 0x7F;

/// The bytes of a frame, in which a dot stands for an idle output.
pub fn frame_of(alloc: Global, text: &str) -> Result<Vec<u8>> {
    let mut frame = Vec::new(alloc);
    add_frame(text, &mut frame)?;
    Ok(frame)
}

/// Appends these bytes.
pub fn add_frame(text: &str, into: &mut Vec<u8>) -> Result<()> {
    for byte in text.as_bytes() {
        into.push(if *byte == b'.' { IDLE } else { *byte })?;
    }
    Ok(())
}

/// The value as its type is spelled.
pub fn spelled<T: Debug>(alloc: Global, value: &T) -> Result<String> {
    Ok(format!(in alloc; "{value:?}")?)
}
