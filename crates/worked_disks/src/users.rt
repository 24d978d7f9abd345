//! Rows of users that commands keep: what each command comes to, who logs in, what a later opening finds, also in a journal that is torn or
//! changed and in what a crash leaves.

use crate::opening::run_fault;
use crate::pair::pair_of;
use anyhow::{Context, Result, ensure};
use shelf_file::{Shelf, shelf_of};
use std::alloc::Global;
use worked_common::{Line, Tally, bytes_of, decimal, joined, lines_of, number_of};

fn change_byte(journal: &mut Vec<u8>, rest: &str) -> Result<()> {
    let (at, byte) = pair_of(rest)?;
    ensure!(at < journal.len(), "no such byte");
    journal[at] = (byte % 256) as u8;
    Ok(())
}

// What a line in front of an opening makes of the bytes with which each row begins, and of the journal.
fn take_line(alloc: Global, line: Line, file: &mut Vec<u8>, journal: &mut Vec<u8>) -> Result<()> {
    match line.word {
        "file" => *file = bytes_of(alloc, line.rest)?,
        "row" => *journal = file.clone()?,
        "front" => journal.truncate(number_of(line.rest)? as usize),
        "byte" => change_byte(journal, line.rest)?,
        _ => {}
    }
    Ok(())
}

// Runs the openings of all rows. The lines after an opening are read with it.
fn run_rows(alloc: Global, shelf: &Shelf, lines: &[Line], tally: &mut Tally) -> Result<()> {
    let mut name = "";
    let (mut file, mut journal) = (Vec::new(alloc), Vec::new(alloc));
    for at in 0..lines.len() {
        let line = lines[at];
        take_line(alloc, line, &mut file, &mut journal)?;
        if line.word == "row" {
            name = line.rest;
        }
        if line.word == "open" {
            let why = run_fault(alloc, shelf, &mut journal, line.rest, &lines[at + 1..])?;
            tally.count(alloc, name, at as u64, why)?;
        }
    }
    Ok(())
}

fn summed(alloc: Global, tally: &Tally) -> Result<String> {
    let count = decimal(alloc, tally.runs)?;
    let counted = joined(alloc, &[count.as_str(), " openings"])?;
    tally.told(alloc, counted.as_str())
}

/// What comes of the rows of a text on a shelf that these bytes describe.
pub fn users_told(alloc: Global, described: &[u8], text: &str) -> Result<String> {
    let shelf = shelf_of(alloc, described).ok().context("no shelf file")?;
    let mut tally = Tally::new(alloc);
    let lines = lines_of(alloc, text)?;
    run_rows(alloc, &shelf, &lines, &mut tally)?;
    summed(alloc, &tally)
}
