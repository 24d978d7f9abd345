use crate::words::{decimal, joined, push_texts};
use anyhow::Result;
use std::alloc::Global;

/// How often rows were run, and what those that failed did.
#[derive(Drop)]
pub struct Tally {
    pub runs: u64,
    failed: u64,
    report: String,
}

impl Tally {
    pub fn new(alloc: Global) -> Tally {
        Tally {
            runs: 0,
            failed: 0,
            report: String::new(alloc),
        }
    }

    /// Counts a run of the row of that name, which was the one of that number. Some: what wasn't as it must be.
    pub fn count(&mut self, alloc: Global, name: &str, at: u64, why: Option<String>) -> Result<()> {
        self.runs = self.runs.saturating_add(1);
        let Some(why) = why else {
            return Ok(());
        };
        self.failed = self.failed.saturating_add(1);
        let at = decimal(alloc, at)?;
        let texts = [name, ", ", at.as_str(), ": ", why.as_str(), "\n"];
        push_texts(&texts, &mut self.report)
    }

    /// A line for each run that failed, and one that says what was counted.
    pub fn told(&self, alloc: Global, counted: &str) -> Result<String> {
        let failed = decimal(alloc, self.failed)?;
        joined(
            alloc,
            &[
                self.report.as_str(),
                counted,
                ", ",
                failed.as_str(),
                " of them failed\n",
            ],
        )
    }
}
