//! What gate, disk and workers came to in a session, beside what it says.

use crate::carrier::Carrier;
use crate::crew::Crew;
use crate::row::same_as_said;
use anyhow::{Context, Result, ensure};
use std::alloc::Global;
use worked_common::{Levers, Part, frame_of, number_of, same_bytes, two};

/// Compares how often gate and disk were asked.
pub fn compare_counts(
    alloc: Global,
    gate: &Carrier,
    levers: &Levers,
    session: Part<'_, '_>,
) -> Result<()> {
    same_as_said(alloc, session, "asked", &gate.asked())?;
    let calls = levers.calls();
    same_as_said(alloc, session, "calls", &[calls])?;
    if let Some(failing) = session.number_at("fails")? {
        ensure!(failing < calls, "no call of the disk failed");
    }
    Ok(())
}

/// Compares the frames, in the session and after it.
pub fn compare_frames(alloc: Global, gate: &mut Carrier, session: Part<'_, '_>) -> Result<()> {
    ensure!(!gate.went_astray(), "another frame was carried");
    let crew = &mut gate.crew;
    crew.carry();
    if let Some(last) = session.last("last") {
        same_frame(alloc, "the line", crew.frame(), last)?;
    }
    for line in session.lines {
        if line.word == "by" {
            compare_frame_by(alloc, crew, line.rest)?;
        }
    }
    Ok(())
}

// Compares what a worker wrote of the last frame: its number, and the frame.
fn compare_frame_by(alloc: Global, crew: &Crew, said: &str) -> Result<()> {
    let (worker, frame) = two(said)?;
    let worker = number_of(worker)? as usize;
    let output = crew.frame_by(worker).context("no such worker")?;
    same_frame(alloc, "a worker's line", output, frame)
}

fn same_frame(alloc: Global, what: &str, carried: &[u8], said: &str) -> Result<()> {
    let wanted = frame_of(alloc, said)?;
    same_bytes(alloc, what, carried, &wanted)
}
