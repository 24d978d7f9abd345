//! Runs worked rows of stops, restarts, faults of the disk and random changes through sessions on one element, and compares what is written, where
//! the gate was asked, each frame and each register word with what they say.
#![tactic(auto)]

mod audit;
mod beside;
mod element;
mod places;
mod run;
mod stale;
mod users;

use crate::run::run_row;
use anyhow::Result;
use std::alloc::Global;
use std::sync::Wait;
use worked_common::{Part, Tally, decimal, joined, lines_of, why_of};
use worked_frames::{WORDS, spelled_out, text_of};

fn main(rt: HostRuntime) -> Result<()> {
    let text = text_of(&rt)?;
    let told = told_of(rt.alloc(), &rt, text.as_str())?;
    print!(rt; "{told}")?;
    Ok(())
}

// What comes of the rows of the text.
fn told_of<R: Wait>(alloc: Global, rt: &R, text: &str) -> Result<String> {
    let mut tally = Tally::new(alloc);
    run_all(alloc, rt, text, &mut tally)?;
    let count = decimal(alloc, tally.runs)?;
    let counted = joined(alloc, &[count.as_str(), " rows"])?;
    tally.told(alloc, counted.as_str())
}

// Runs and counts the rows of the text.
fn run_all<R: Wait>(alloc: Global, rt: &R, text: &str, tally: &mut Tally) -> Result<()> {
    let lines = lines_of(alloc, text)?;
    let all = Part {
        lines: &lines,
        number: 0,
    };
    all.known(&WORDS)?;
    let parts = all.parts(alloc, &["part"])?;
    for row in all.parts(alloc, &["row"])?.iter().rev() {
        count_row(alloc, rt, *row, &parts, tally)?;
    }
    Ok(())
}

// Runs and counts the row.
fn count_row<'a, R: Wait>(
    alloc: Global,
    rt: &R,
    row: Part<'_, 'a>,
    parts: &[Part<'_, 'a>],
    tally: &mut Tally,
) -> Result<()> {
    let lines = spelled_out(alloc, row, parts)?;
    let spelled = Part {
        lines: &lines,
        number: 0,
    };
    let why = why_of(alloc, run_row(alloc, rt, spelled))?;
    tally.count(alloc, row.name(), 0, why)
}
