//! The element of a row, and the connections that its frames are to carry.

use crate::lines::{Worker, byte_of};
use crate::meeting::Meeting;
use anyhow::{Context, Result, ensure};
use std::alloc::Global;
use worked_common::{IDLE, Part, number_of, shape_of, small_of, two};

/// The modules of an element and the slots of each.
#[derive(Clone, Copy)]
pub struct Size {
    modules: u16,
    slots: u16,
}

impl Size {
    /// The shelf file of the row, and its size.
    pub fn of<'a>(row: Part<'_, 'a>) -> Result<(&'a str, Size)> {
        let (shelf, size) = two(row.last("shelf").context("a shelf is wanted")?)?;
        let (modules, slots) = shape_of(size)?;
        Ok((shelf, Size { modules, slots }))
    }

    /// The worker of this number, of so many.
    pub fn worker(self, number: u16, workers: u16) -> Worker {
        Worker {
            number,
            workers,
            slots: self.slots,
        }
    }

    fn ports(self) -> u16 {
        self.modules.saturating_mul(self.slots)
    }

    // The number of the port of this name, from 0.
    fn port(self, name: &str) -> Result<u16> {
        let rest = name.strip_prefix("DS0-").context("a port is wanted")?;
        let (module, slot) = rest.split_once('-').context("a slot is wanted")?;
        let first = small_of(module)?
            .saturating_sub(1)
            .saturating_mul(self.slots);
        let port = first.saturating_add(small_of(slot)?.saturating_sub(1));
        ensure!(port < self.ports(), "the element has no such port");
        Ok(port)
    }

    // Two ports.
    fn leg(self, names: &str) -> Result<(u16, u16)> {
        let (input, output) = two(names)?;
        Ok((self.port(input)?, self.port(output)?))
    }
}

/// A connection that is known to stand for a time: each frame that begins and ends within it carries the input's byte.
#[derive(Clone, Copy)]
pub struct Carried {
    /// It stands when this point was come to,
    from: usize,
    /// and until this one is, if any is.
    until: usize,
    pub input: u16,
    pub output: u16,
    /// Whether it stood when the frame in hand began.
    stands: bool,
}

impl Carried {
    // By the points and ports that the text tells.
    fn of(size: Size, text: &str) -> Result<Carried> {
        let (from, rest) = two(text)?;
        let (until, names) = two(rest)?;
        let (input, output) = size.leg(names)?;
        Ok(Carried {
            from: number_of(from)? as usize,
            until: if until == "-" {
                usize::MAX
            } else {
                number_of(until)? as usize
            },
            input,
            output,
            stands: false,
        })
    }

    /// Looks whether it stands, where a frame begins.
    pub fn look(&mut self, meeting: &Meeting) {
        self.stands = meeting.count(self.from) != 0;
    }

    /// Whether it stood all the time since that look.
    pub fn stood(&self, meeting: &Meeting) -> bool {
        self.stands && meeting.count(self.until) == 0
    }
}

/// The connections that are known to stand while the row's sessions are served.
pub fn carried_of(alloc: Global, size: Size, row: Part<'_, '_>) -> Result<Vec<Carried>> {
    let mut carried = Vec::new(alloc);
    for line in row.lines {
        if line.word == "carried" {
            carried.push(Carried::of(size, line.rest)?)?;
        }
    }
    Ok(carried)
}

/// The connections that stand when all sessions are over.
pub fn stands_of(alloc: Global, size: Size, row: Part<'_, '_>) -> Result<Vec<(u16, u16)>> {
    let mut stands = Vec::new(alloc);
    for line in row.lines {
        if line.word == "stands" {
            stands.push(size.leg(line.rest)?)?;
        }
    }
    Ok(stands)
}

/// What the worker must carry in the last two frames, where these connections stand.
pub fn last_frames(
    alloc: Global,
    size: Size,
    worker: Worker,
    stands: &[(u16, u16)],
) -> Result<Vec<u8>> {
    let mut frames = Vec::new(alloc);
    for frame in 0..2 {
        for port in 0..size.ports() {
            frames.push(if worker.has(port) {
                carried_to(port, stands, frame)
            } else {
                IDLE
            })?;
        }
    }
    Ok(frames)
}

// The byte that goes out at the port in the frame of this number.
fn carried_to(port: u16, stands: &[(u16, u16)], frame: u8) -> u8 {
    for (input, output) in stands {
        if *output == port {
            return byte_of(*input, frame);
        }
    }
    IDLE
}
