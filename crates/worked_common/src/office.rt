use crate::part::Part;
use crate::shelf::shelf_text;
use crate::torn::Torn;
use crate::words::{Line, add_hex, byte, hex_of, joined, number_of, shape_of, two};
use crate::written::number_otherwise;
use anyhow::{Context, Result, ensure};
use std::alloc::Global;
use std::fs;

/// The names under which a run finds a row's files.
const SHELF: &str = "s";

const JOURNAL: &str = "j";

const USERS: &str = "j.users";

/// What a row's runs find, one after the other.
#[derive(Drop)]
pub struct Office<'a> {
    /// The element's name, as headers have it.
    pub sid: &'a str,
    pub shelf: Vec<u8>,
    /// What the journal's file holds; empty is new.
    pub journal: Vec<u8>,
    /// The same of the users' journal.
    pub users: Vec<u8>,
    /// What comes of the bytes of a write that fails.
    pub torn: Torn,
}

impl<'a> Office<'a> {
    /// What the first run finds, by the lines in front of it.
    pub fn of(rt: &HostRuntime, head: Part<'_, 'a>) -> Result<Office<'a>> {
        let alloc = rt.alloc();
        let mut office = Office {
            sid: head.last("sid").unwrap_or("DXC1"),
            torn: Torn::of(head.last("torn").unwrap_or("lost"))?,
            shelf: shelf_of(rt, head)?,
            journal: Vec::new(alloc),
            users: Vec::new(alloc),
        };
        office.take_all(alloc, head)?;
        Ok(office)
    }

    fn take_all(&mut self, alloc: Global, head: Part<'_, '_>) -> Result<()> {
        for line in head.lines {
            self.take(alloc, *line, head.number)?;
        }
        Ok(())
    }

    // Takes a line on the journals, in a row that is run for that number.
    fn take(&mut self, alloc: Global, line: Line<'_>, number: u64) -> Result<()> {
        match line.word {
            "old" => add_bytes(line.rest, &mut self.journal),
            "times" => add_times(line.rest, &mut self.journal),
            "from" => fill_to(&mut self.journal, number_of(line.rest)? as usize),
            "change" => turn(&mut self.journal, number as usize, number_of(line.rest)?),
            "people" => add_bytes(line.rest, &mut self.users),
            "cut" => {
                self.journal.truncate(number as usize);
                Ok(())
            }
            _ => Ok(()),
        }
    }

    /// Writes the files under the names of a run.
    pub fn write(&self, rt: &HostRuntime) -> Result<()> {
        fs::write(rt, SHELF, &self.shelf)?;
        fs::write(rt, JOURNAL, &self.journal)?;
        fs::write(rt, USERS, &self.users)?;
        Ok(())
    }

    /// Reads what a run left in the files.
    pub fn read(&mut self, rt: &HostRuntime) -> Result<()> {
        self.journal = fs::read(rt, JOURNAL)?;
        self.users = fs::read(rt, USERS)?;
        Ok(())
    }

    /// What of the files is otherwise than it must be after the run of these lines.
    pub fn otherwise(&self, alloc: Global, run: Part<'_, '_>) -> Result<Option<String>> {
        let length = self.journal.len() as u64;
        let wanted = run.number_at("length")?.unwrap_or(length);
        let why = number_otherwise(alloc, "the journal's length", length, wanted)?;
        if why.is_some() {
            return Ok(why);
        }
        for line in run.lines {
            let why = self.line_otherwise(alloc, *line)?;
            if why.is_some() {
                return Ok(why);
            }
        }
        Ok(None)
    }

    // What isn't as a line says: all of the journal, of the users' journal, or bytes of the journal from a place on.
    fn line_otherwise(&self, alloc: Global, line: Line<'_>) -> Result<Option<String>> {
        match line.word {
            "after" => bytes_otherwise(
                alloc,
                "the journal",
                &self.journal,
                &bytes_in(alloc, line.rest)?,
            ),
            "users" => bytes_otherwise(
                alloc,
                "the users' journal",
                &self.users,
                &bytes_in(alloc, line.rest)?,
            ),
            "piece" => self.piece_otherwise(alloc, line.rest),
            _ => Ok(None),
        }
    }

    fn piece_otherwise(&self, alloc: Global, text: &str) -> Result<Option<String>> {
        let (at, digits) = two(text)?;
        let behind = self.journal.get(number_of(at)? as usize..).unwrap_or(&[]);
        let wanted = bytes_in(alloc, digits)?;
        let piece = behind.get(..wanted.len()).unwrap_or(behind);
        bytes_otherwise(alloc, "a piece", piece, &wanted)
    }
}

/// What bytes are otherwise than they must be.
pub fn bytes_otherwise(
    alloc: Global,
    what: &str,
    found: &[u8],
    wanted: &[u8],
) -> Result<Option<String>> {
    if found == wanted {
        return Ok(None);
    }
    let found = hex_of(alloc, found)?;
    Ok(Some(joined(alloc, &[what, " was ", found.as_str()])?))
}

// The shelf file: that of a name or of a shape, with texts replaced, or filled up with line ends.
fn shelf_of(rt: &HostRuntime, head: Part<'_, '_>) -> Result<Vec<u8>> {
    let alloc = rt.alloc();
    let mut text = match head.last("shelf") {
        Some(name) => fs::read(rt, name)?,
        None => {
            let (modules, slots) = shape_of(head.last("shape").unwrap_or("2 1"))?;
            shelf_text(alloc, modules, slots)?.into_bytes()
        }
    };
    if let Some(texts) = head.last("swap") {
        text = swapped(alloc, &text, texts)?;
    }
    if let Some(length) = head.number_at("pad")? {
        text.resize(text.len().max(length as usize), b'\n')?;
    }
    Ok(text)
}

// The text with each of one text replaced by another; ~ is a line's end in them.
fn swapped(alloc: Global, text: &[u8], texts: &str) -> Result<Vec<u8>> {
    let texts = replaced(alloc, texts, "~", "\n")?;
    let (old, new) = texts.split_once('|').context("two texts are wanted")?;
    let text = String::from_utf8_lossy(alloc, text)?;
    Ok(replaced(alloc, text.as_str(), old, new)?.into_bytes())
}

fn replaced(alloc: Global, text: &str, old: &str, new: &str) -> Result<String> {
    Ok(text.replace(alloc, old, new)?)
}

// Appends the bytes so often.
fn add_times(rest: &str, into: &mut Vec<u8>) -> Result<()> {
    let Line {
        word: times,
        rest: digits,
    } = Line::of(rest);
    for _ in 0..number_of(times)? {
        add_bytes(digits, into)?;
    }
    Ok(())
}

// Turns these bits of the byte at a place.
fn turn(bytes: &mut Vec<u8>, at: usize, bits: u64) -> Result<()> {
    let bits = byte(bits)?;
    ensure!(at < bytes.len(), "there is no such byte");
    bytes[at] ^= bits;
    Ok(())
}

// Adds zeros up to this length.
fn fill_to(bytes: &mut Vec<u8>, length: usize) -> Result<()> {
    bytes.resize(bytes.len().max(length), 0)?;
    Ok(())
}

/// The bytes that hexadecimal digits spell; blanks between them fall away. `00*N` stands for so many zeros.
pub fn bytes_in(alloc: Global, text: &str) -> Result<Vec<u8>> {
    let mut bytes = Vec::new(alloc);
    add_bytes(text, &mut bytes)?;
    Ok(bytes)
}

fn add_bytes(text: &str, into: &mut Vec<u8>) -> Result<()> {
    for word in text.split(' ') {
        add_word(word, into)?;
    }
    Ok(())
}

fn add_word(word: &str, into: &mut Vec<u8>) -> Result<()> {
    let Some(count) = word.strip_prefix("00*") else {
        return add_hex(word, into);
    };
    let length = into.len().saturating_add(number_of(count)? as usize);
    fill_to(into, length)
}
