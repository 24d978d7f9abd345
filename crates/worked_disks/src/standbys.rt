//! Rows of primaries and of standbys: what each sends, what its file is and how it ends.

use crate::primary::primary_otherwise;
use crate::standby::standby_otherwise;
use anyhow::Result;
use std::alloc::Global;
use worked_common::{Part, Tally, decimal, joined, lines_of};

/// The words with which a line may begin.
const WORDS: [&str; 13] = [
    "row", "standby", "primary", "old", "hex", "pieces", "fails", "at", "joins", "write", "sync",
    "sent", "copy",
];

/// What comes of the rows of a text.
pub fn standbys_told(alloc: Global, text: &str) -> Result<String> {
    let lines = lines_of(alloc, text)?;
    let all = Part {
        lines: &lines,
        number: 0,
    };
    let mut tally = Tally::new(alloc);
    run_rows(alloc, all, &mut tally)?;
    summed(alloc, &tally)
}

fn run_rows(alloc: Global, all: Part<'_, '_>, tally: &mut Tally) -> Result<()> {
    for row in all.rows(alloc, &WORDS)?.iter().rev() {
        let why = if row.has("standby") {
            standby_otherwise(alloc, *row)?
        } else {
            primary_otherwise(alloc, *row)?
        };
        tally.count(alloc, row.name(), 0, why)?;
    }
    Ok(())
}

fn summed(alloc: Global, tally: &Tally) -> Result<String> {
    let count = decimal(alloc, tally.runs)?;
    let counted = joined(alloc, &[count.as_str(), " rows"])?;
    tally.told(alloc, counted.as_str())
}
