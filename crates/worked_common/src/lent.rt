//! What a run of the program is lent, and where it leaves what is compared.
use crate::caller::exchange_of;
use crate::crash::{Crash, copy_of};
use crate::disk::RowDisk;
use crate::due::Due;
use crate::exchange::Exchange;
use crate::levers::Levers;
use crate::lines::RowLines;
use crate::link::RowLink;
use crate::listener::RowListener;
use crate::notes::wanted_notes;
use crate::office::Office;
use crate::opener::{Holding, RowOpener};
use crate::part::Part;
use crate::torn::Torn;
use crate::words::{Line, add_frame, joined};
use anyhow::{Context, Result};
use dxc_notes::PLACES;
use dxc_outside::{MemGate, MemLines, MemLink, Name};
use std::alloc::Global;
use std::sync::Arc;

/// The words that begin what a run's opener holds.
const HELD: [&str; 3] = ["lines", "place", "peer"];

/// What a run of the program is lent beside what it opens.
#[derive(Drop)]
pub struct Lent {
    pub words: Vec<Name>,
    pub gate: MemGate,
    pub terminal: RowLink,
}

/// What the run of these lines is lent, for an element of this name.
pub fn lend(alloc: Global, sid: &str, run: Part<'_, '_>, due: &mut Due) -> Result<Lent> {
    Ok(Lent {
        words: names_of(alloc, run.last("run").unwrap_or(""))?,
        gate: MemGate::new(run.failing(alloc, "gate")?),
        terminal: link_of(alloc, sid, run.front(&HELD), "the terminal", due)?,
    })
}

/// What the run of these lines opens in this office.
pub fn opener_of(
    alloc: Global,
    run: Part<'_, '_>,
    office: &Office<'_>,
    due: &mut Due,
) -> Result<RowOpener> {
    let mut holding = Holding::new(alloc, copy_of(alloc, &office.shelf)?);
    hold_disks(alloc, run, office, due, &mut holding)?;
    hold_listeners(alloc, &mut holding.listeners)?;
    hold_parts(alloc, office.sid, run, &mut holding, due)?;
    Ok(RowOpener::new(alloc, holding, run.failing(alloc, "opener")?))
}

/// The words of the program's line.
pub fn names_of(alloc: Global, line: &str) -> Result<Vec<Name>> {
    let mut words = Vec::new(alloc);
    for word in line.split(' ') {
        words.push(Name::of(joined(alloc, &[word])?))?;
    }
    Ok(words)
}

fn hold_disks(
    alloc: Global,
    run: Part<'_, '_>,
    office: &Office<'_>,
    due: &Due,
    holding: &mut Holding,
) -> Result<()> {
    let journal = copy_of(alloc, &office.journal)?;
    holding.journal = Some(disk_of(alloc, run, journal, office.torn, &due.journal)?);
    let levers = Arc::try_clone(&due.users)?;
    let users = copy_of(alloc, &office.users)?;
    let disk = RowDisk::new(users, Vec::new(alloc), office.torn, levers, None);
    holding.users = Some(disk);
    Ok(())
}

// Listeners at which nobody calls.
fn hold_listeners(alloc: Global, listeners: &mut Vec<RowListener>) -> Result<()> {
    for _ in 0..PLACES {
        let nobody = RowListener::new(alloc, Vec::new(alloc), Vec::new(alloc), None);
        listeners.push(nobody)?;
    }
    Ok(())
}

/// A disk that holds these bytes, with the calls on it that fail in the run of these lines, and its crash.
pub fn disk_of(
    alloc: Global,
    run: Part<'_, '_>,
    held: Vec<u8>,
    torn: Torn,
    levers: &Arc<Levers>,
) -> Result<RowDisk> {
    levers.set(run.failing(alloc, "disk")?.first().copied(), false);
    if let Some(write) = run.failing(alloc, "writes")?.first() {
        levers.fail_writes(*write, *write);
    }
    let crash = crash_of(alloc, run, levers)?;
    let levers = Arc::try_clone(levers)?;
    Ok(RowDisk::new(held, Vec::new(alloc), torn, levers, crash))
}

// The crash that comes in the run, with the first call that it leaves out.
fn crash_of(alloc: Global, run: Part<'_, '_>, levers: &Levers) -> Result<Option<Crash>> {
    let Some(left) = run.last("crash") else {
        return Ok(None);
    };
    levers.fail_writes(run.number, u64::MAX);
    Ok(Some(Crash::new(alloc, Torn::of(left)?)))
}

// Adds what the workers, the places and the standby are.
fn hold_parts(
    alloc: Global,
    sid: &str,
    run: Part<'_, '_>,
    holding: &mut Holding,
    due: &mut Due,
) -> Result<()> {
    for part in &run.parts(alloc, &HELD)? {
        let head = part.lines.first().context("a part has no line")?;
        match head.word {
            "lines" => hold_worker(alloc, *part, head.rest, holding, due)?,
            "place" => hold_place(alloc, sid, *part, holding, due)?,
            // The last one comes first: where there are two, that is the one of the users.
            _ => {
                holding.users_peer = holding.peer.take();
                holding.peer = Some(link_of(alloc, sid, *part, "the standby", due)?);
            }
        }
    }
    Ok(())
}

fn hold_worker(
    alloc: Global,
    part: Part<'_, '_>,
    frames: &str,
    holding: &mut Holding,
    due: &mut Due,
) -> Result<()> {
    holding.lines.push(lines_of(alloc, part, frames, due)?)?;
    let gate = MemGate::new(part.failing(alloc, "frames")?);
    holding.gates.push(gate)?;
    Ok(())
}

fn hold_place(
    alloc: Global,
    sid: &str,
    part: Part<'_, '_>,
    holding: &mut Holding,
    due: &mut Due,
) -> Result<()> {
    holding.listeners.push(listener_of(alloc, sid, part, due)?)?;
    let gate = MemGate::new(part.failing(alloc, "session")?);
    holding.gates.push(gate)?;
    Ok(())
}

/// A link over which somebody sends what the lines say.
pub fn link_of(
    alloc: Global,
    sid: &str,
    part: Part<'_, '_>,
    who: &'static str,
    due: &mut Due,
) -> Result<RowLink> {
    let most = part.number_at("takes")?.unwrap_or(u64::MAX);
    let failing = part.failing(alloc, "link")?;
    let Exchange {
        input,
        pieces,
        output,
    } = exchange_of(alloc, sid, part)?;
    let held = MemLink::new(input, pieces, failing, Vec::new(alloc));
    let kept = due.expect(alloc, who, output)?;
    Ok(RowLink::new(alloc, held, most as usize, kept))
}

// The callers of a place, and what must be noted of them.
fn listener_of(
    alloc: Global,
    sid: &str,
    place: Part<'_, '_>,
    due: &mut Due,
) -> Result<RowListener> {
    let mut links = Vec::new(alloc);
    for caller in &place.parts(alloc, &["caller"])? {
        links.push(link_of(alloc, sid, *caller, "a caller", due)?)?;
    }
    let kept = match wanted_notes(alloc, place)? {
        Some(wanted) => Some(due.expect(alloc, "the notes", wanted)?),
        None => None,
    };
    let failing = place.failing(alloc, "accepts")?;
    Ok(RowListener::new(alloc, links, failing, kept))
}

// The lines of a worker, which give these frames.
fn lines_of(alloc: Global, part: Part<'_, '_>, frames: &str, due: &mut Due) -> Result<RowLines> {
    let Line { word, rest } = Line::of(part.last("carried").unwrap_or("0"));
    let carried = frames_of(alloc, rest, part.number_in(word)?)?;
    let kept = due.expect(alloc, "a worker", carried)?;
    let failing = part.failing(alloc, "lines")?;
    let input = frames_of(alloc, frames, u64::MAX)?;
    let held = MemLines::new(input, failing, Vec::new(alloc));
    Ok(RowLines::new(alloc, held, kept))
}

// The bytes of so many of the frames.
fn frames_of(alloc: Global, text: &str, count: u64) -> Result<Vec<u8>> {
    let mut bytes = Vec::new(alloc);
    let mut left = count;
    for frame in text.split(' ') {
        if left == 0 {
            break;
        }
        left -= 1;
        add_frame(frame, &mut bytes)?;
    }
    Ok(bytes)
}
