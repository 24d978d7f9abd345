use crate::crash::copy_of;
use crate::levers::Levers;
use crate::link::Kept;
use crate::office::Office;
use crate::part::Part;
use crate::written::{number_otherwise, written_otherwise};
use anyhow::{Context, Result};
use std::alloc::Global;
use std::sync::{Arc, OnceLock};

/// What must be written over a link or lines.
#[derive(Drop)]
struct Wanted {
    who: &'static str,
    kept: Kept,
    bytes: Vec<u8>,
}

/// What a run leaves once all that it was lent is dropped, and what that must be.
#[derive(Drop)]
pub struct Due {
    wanted: Vec<Wanted>,
    /// Those of the journal's disk.
    pub journal: Arc<Levers>,
    /// Those of the disk of the users' journal.
    pub users: Arc<Levers>,
}

impl Due {
    pub fn new(alloc: Global) -> Result<Due> {
        Ok(Due {
            wanted: Vec::new(alloc),
            journal: Levers::new(alloc).ok().context("no memory")?,
            users: Levers::new(alloc).ok().context("no memory")?,
        })
    }

    /// Where somebody leaves what he was written, which must be these bytes.
    pub fn expect(&mut self, alloc: Global, who: &'static str, bytes: Vec<u8>) -> Result<Kept> {
        let kept = Arc::new(alloc, OnceLock::new())?;
        self.wanted.push(Wanted {
            who,
            kept: Arc::try_clone(&kept)?,
            bytes,
        })?;
        Ok(kept)
    }

    /// Leaves in the office what the disks held.
    pub fn leave(&self, alloc: Global, office: &mut Office<'_>) -> Result<()> {
        office.journal = left_by(alloc, &self.journal)?;
        office.users = left_by(alloc, &self.users)?;
        Ok(())
    }

    /// What the run of these lines did otherwise than it must, which ended with a status of this number and name.
    pub fn otherwise(
        &self,
        alloc: Global,
        run: Part<'_, '_>,
        number: u64,
        status: &str,
    ) -> Result<Option<String>> {
        if run.has("any") {
            return Ok(None);
        }
        if let Some(why) = status_otherwise(alloc, run, number, status)? {
            return Ok(Some(why));
        }
        if let Some(why) = self.written_otherwise(alloc)? {
            return Ok(Some(why));
        }
        match run.number_at("calls")? {
            Some(wanted) => {
                number_otherwise(alloc, "the journal's calls", self.journal.writes(), wanted)
            }
            None => Ok(None),
        }
    }

    /// What somebody was written otherwise than he must be.
    pub fn written_otherwise(&self, alloc: Global) -> Result<Option<String>> {
        for each in &self.wanted {
            let written = each.kept.get().context("somebody has no end")?;
            if let Some(why) = written_otherwise(alloc, each.who, written, &each.bytes)? {
                return Ok(Some(why));
            }
        }
        Ok(None)
    }
}

/// What a disk held when it was dropped.
pub fn left_by(alloc: Global, levers: &Levers) -> Result<Vec<u8>> {
    let left = levers.left().context("a disk is held")?;
    Ok(copy_of(alloc, left)?)
}

// What the status is otherwise.
fn status_otherwise(
    alloc: Global,
    run: Part<'_, '_>,
    number: u64,
    status: &str,
) -> Result<Option<String>> {
    match run.last("end") {
        Some(end) => written_otherwise(alloc, "the end", status.as_bytes(), end.as_bytes()),
        None => {
            let wanted = run.number_at("status")?.unwrap_or(0);
            number_otherwise(alloc, "the status", number, wanted)
        }
    }
}
