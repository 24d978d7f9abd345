use crate::run::run_row;
use crate::sessions::serve_row;
use crate::turn::Turn;
use crate::words::{RUN_WORDS, SESSION_WORDS};
use anyhow::Result;
use dxc_args::Status;
use std::alloc::Global;
use std::fs;
use std::sync::Wait;
use std::thread::Threads;
use worked_common::{Part, Tally, decimal, joined, lines_of, why_of};

/// What the rows of a file run over.
#[derive(Clone, Copy)]
pub enum Over {
    /// Files of the system.
    Files,
    /// Fakes in memory.
    Fakes,
    /// Fakes, with each session and each frame worker on a thread of its own.
    Threads,
}

/// Runs each row of the files of these names through the program, and writes what came of them.
pub fn run_files<R: Threads + Wait + Copy + Send + Drop + 'static, F: Fn(&mut Turn<R>) -> Status>(
    program: &F,
    rt: &HostRuntime,
    threads: &R,
    files: &[(&str, Over)],
) -> Result<()>
    requires { F.IsAlwaysCallable program.now }
{
    for (name, over) in files {
        let text = fs::read_to_string(rt, name)?;
        let told = told_of(program, rt, threads, name, text.as_str(), *over)?;
        print!(rt; "{told}")?;
    }
    Ok(())
}

// What comes of the rows of a file's text.
fn told_of<R: Threads + Wait + Copy + Send + Drop + 'static, F: Fn(&mut Turn<R>) -> Status>(
    program: &F,
    rt: &HostRuntime,
    threads: &R,
    name: &str,
    text: &str,
    over: Over,
) -> Result<String>
    requires { F.IsAlwaysCallable program.now }
{
    let lines = lines_of(rt.alloc(), text)?;
    let all = Part {
        lines: &lines,
        number: 0,
    };
    let rows = rows_of(rt.alloc(), all, over)?;
    let mut tally = Tally::new(rt.alloc());
    for row in rows.iter().rev() {
        run_all(program, rt, threads, *row, over, &mut tally)?;
    }
    summed(rt.alloc(), name, rows.len() as u64, &tally)
}

fn rows_of<'m, 'a>(alloc: Global, all: Part<'m, 'a>, over: Over) -> Result<Vec<Part<'m, 'a>>> {
    match over {
        Over::Threads => all.rows(alloc, &SESSION_WORDS),
        Over::Files | Over::Fakes => all.rows(alloc, &RUN_WORDS),
    }
}

// Runs a row for each of its numbers.
fn run_all<R: Threads + Wait + Copy + Send + Drop + 'static, F: Fn(&mut Turn<R>) -> Status>(
    program: &F,
    rt: &HostRuntime,
    threads: &R,
    row: Part<'_, '_>,
    over: Over,
    tally: &mut Tally,
) -> Result<()>
    requires { F.IsAlwaysCallable program.now }
{
    let (first, last) = row.each()?;
    for number in first..=last {
        let lines = row.lines;
        let why = run_one(program, rt, threads, Part { lines, number }, over)?;
        tally.count(rt.alloc(), row.name(), number, why)?;
    }
    Ok(())
}

// What isn't as it must be in the run of a row for one number.
fn run_one<R: Threads + Wait + Copy + Send + Drop + 'static, F: Fn(&mut Turn<R>) -> Status>(
    program: &F,
    rt: &HostRuntime,
    threads: &R,
    row: Part<'_, '_>,
    over: Over,
) -> Result<Option<String>>
    requires { F.IsAlwaysCallable program.now }
{
    match over {
        Over::Files => run_row(program, rt, row, true),
        Over::Fakes => run_row(program, rt, row, false),
        Over::Threads => why_of(rt.alloc(), serve_row(program, rt, threads, row)),
    }
}

fn summed(alloc: Global, name: &str, rows: u64, tally: &Tally) -> Result<String> {
    let (rows, runs) = (decimal(alloc, rows)?, decimal(alloc, tally.runs)?);
    let texts = [
        name,
        ": ",
        runs.as_str(),
        " runs of ",
        rows.as_str(),
        " rows",
    ];
    let counted = joined(alloc, &texts)?;
    tally.told(alloc, counted.as_str())
}
