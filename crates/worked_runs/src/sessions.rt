//! Rows of several sessions at once: each session and each frame worker runs on a thread of its own.

use crate::turn::{Beside, Turn};
use anyhow::{Context, Result, ensure};
use dxc_args::Status;
use dxc_disk::MemDisk;
use dxc_host::ThreadSpawner;
use dxc_outside::{MemGate, MemLink, Name};
use std::alloc::Global;
use std::fs;
use std::sync::{Arc, Wait};
use std::thread::Threads;
use worked_common::{Part, decimal, joined, names_of, same_bytes, small};
use worked_meetings::{
    CueLink, Cued, CuedGate, Meeting, Script, Session, SessionsOpener, Size, WatchedLines, act_of,
    carried_of, last_frames, session_of, standing, stands_of,
};

/// Serves the row's sessions and workers on a new journal, with its gates cued for its number. An error tells what isn't as it must be.
pub fn serve_row<R: Threads + Wait + Copy + Send + Drop + 'static, F: Fn(&mut Turn<R>) -> Status>(
    program: &F,
    rt: &HostRuntime,
    threads: &R,
    row: Part<'_, '_>,
) -> Result<()>
    requires { F.IsAlwaysCallable program.now }
{
    let alloc = rt.alloc();
    let workers = small(row.number_at("workers")?.unwrap_or(1))?;
    let sessions = row.parts(alloc, &["session"])?;
    let meeting = Meeting::new(alloc, sessions.len(), workers as usize)?;
    let meeting = Arc::new(alloc, meeting)?;
    serve_sessions(program, rt, threads, row, &sessions, workers, &meeting)
}

// Serves these sessions and so many workers, and compares what they leave.
fn serve_sessions<R: Threads + Wait + Copy + Send + Drop + 'static, F: Fn(&mut Turn<R>) -> Status>(
    program: &F,
    rt: &HostRuntime,
    threads: &R,
    row: Part<'_, '_>,
    sessions: &[Part<'_, '_>],
    workers: u16,
    meeting: &Arc<Meeting>,
) -> Result<()>
    requires { F.IsAlwaysCallable program.now }
{
    let status = status_of(program, rt, threads, row, sessions, workers, meeting)?;
    ensure!(status == 0, "it ended with another status");
    ensure!(!meeting.is_given_up(), "a thread was waited for in vain");
    ensure!(meeting.astray() == 0, "bytes went astray");
    compare_sessions(rt.alloc(), row, sessions, meeting)?;
    compare_frames(rt.alloc(), row, sessions.len(), workers, meeting)
}

// The number of the status that the program ends with. Nobody reads or writes at the terminal, and the gate that is asked while the controller
// starts goes on.
fn status_of<R: Threads + Wait + Copy + Send + Drop + 'static, F: Fn(&mut Turn<R>) -> Status>(
    program: &F,
    rt: &HostRuntime,
    threads: &R,
    row: Part<'_, '_>,
    sessions: &[Part<'_, '_>],
    workers: u16,
    meeting: &Arc<Meeting>,
) -> Result<u8>
    requires { F.IsAlwaysCallable program.now }
{
    let words = words_of(rt.alloc(), workers)?;
    let opener = opener_of(rt, row, sessions, workers, meeting)?;
    let beside = beside_of(rt.alloc(), words, *threads);
    Ok(program(&mut Turn::Threads(opener, beside)).number())
}

// What the row's run opens.
fn opener_of(
    rt: &HostRuntime,
    row: Part<'_, '_>,
    sessions: &[Part<'_, '_>],
    workers: u16,
    meeting: &Arc<Meeting>,
) -> Result<SessionsOpener> {
    let (shelf, _) = Size::of(row)?;
    let mut opener = SessionsOpener::new(rt.alloc(), fs::read(rt, shelf)?);
    hold(rt, row, sessions, workers, meeting, &mut opener)?;
    Ok(opener)
}

fn beside_of<R: Threads + Wait + Copy + Send + Drop + 'static>(
    alloc: Global,
    words: Vec<Name>,
    threads: R,
) -> Beside<MemLink, ThreadSpawner<R>> {
    Beside {
        words,
        terminal: MemLink::new(
            Vec::new(alloc),
            Vec::new(alloc),
            Vec::new(alloc),
            Vec::new(alloc),
        ),
        clock: standing(alloc),
        gate: MemGate::new(Vec::new(alloc)),
        spawner: ThreadSpawner::new(threads, Vec::new(alloc)),
    }
}

fn words_of(alloc: Global, workers: u16) -> Result<Vec<Name>> {
    let count = decimal(alloc, workers as u64)?;
    let line = joined(alloc, &["serve s j address lines ", count.as_str()])?;
    names_of(alloc, line.as_str())
}

// Adds what the row's run opens.
fn hold(
    rt: &HostRuntime,
    row: Part<'_, '_>,
    sessions: &[Part<'_, '_>],
    workers: u16,
    meeting: &Arc<Meeting>,
    opener: &mut SessionsOpener,
) -> Result<()> {
    hold_disks(rt.alloc(), &mut opener.disks)?;
    hold_sessions(rt, row, sessions, meeting, opener)?;
    hold_workers(rt.alloc(), row, sessions.len(), workers, meeting, opener)
}

// Adds the disks of the journal and of the users' journal.
fn hold_disks(alloc: Global, disks: &mut Vec<MemDisk>) -> Result<()> {
    for _ in 0..2 {
        let disk = MemDisk::new(alloc, Vec::new(alloc), Vec::new(alloc));
        disks.push(disk.ok().context("no memory for a disk")?)?;
    }
    Ok(())
}

// Adds a caller and a gate for each session, of which the last one comes first.
fn hold_sessions(
    rt: &HostRuntime,
    row: Part<'_, '_>,
    sessions: &[Part<'_, '_>],
    meeting: &Arc<Meeting>,
    opener: &mut SessionsOpener,
) -> Result<()> {
    for (number, session) in sessions.iter().enumerate() {
        let caller = caller_of(rt, row, *session, number, meeting)?;
        opener.callers.push(caller)?;
        opener.gates.push(gate_of(rt, *session, meeting)?)?;
    }
    Ok(())
}

// Adds lines and a gate for each worker.
fn hold_workers(
    alloc: Global,
    row: Part<'_, '_>,
    sessions: usize,
    workers: u16,
    meeting: &Arc<Meeting>,
    opener: &mut SessionsOpener,
) -> Result<()> {
    let (_, size) = Size::of(row)?;
    for number in (0..workers).rev() {
        let worker = size.worker(number, workers);
        let place = sessions.saturating_add(number as usize);
        let meeting = Arc::try_clone(meeting)?;
        let known = carried_of(alloc, size, row)?;
        let lines = WatchedLines::new(meeting, worker, place, known, Vec::new(alloc));
        opener.lines.push(lines)?;
        opener.gates.push(CuedGate::new(None))?;
    }
    Ok(())
}

// The session of these lines, of the row's element.
fn session_in(alloc: Global, row: Part<'_, '_>, session: Part<'_, '_>) -> Result<Session> {
    session_of(alloc, row.last("sid").unwrap_or("DXC1"), session)
}

// The caller of the session of that number.
fn caller_of(
    rt: &HostRuntime,
    row: Part<'_, '_>,
    session: Part<'_, '_>,
    number: usize,
    meeting: &Arc<Meeting>,
) -> Result<CueLink> {
    let over = session.number_at("over")?;
    let meeting = Arc::try_clone(meeting)?;
    let Session { exchange, cues } = session_in(rt.alloc(), row, session)?;
    let script = Script {
        rt: *rt,
        meeting,
        input: exchange.input,
        cues,
        taken: 0,
        given: 0,
    };
    Ok(CueLink::new(script, number, over, Vec::new(rt.alloc())))
}

fn gate_of(rt: &HostRuntime, session: Part<'_, '_>, meeting: &Arc<Meeting>) -> Result<CuedGate> {
    let Some(act) = act_of(session)? else {
        return Ok(CuedGate::new(None));
    };
    Ok(CuedGate::new(Some(Cued {
        rt: *rt,
        meeting: Arc::try_clone(meeting)?,
        asking: session.number,
        act,
    })))
}

fn compare_sessions(
    alloc: Global,
    row: Part<'_, '_>,
    sessions: &[Part<'_, '_>],
    meeting: &Meeting,
) -> Result<()> {
    for (number, session) in sessions.iter().enumerate() {
        let wanted = session_in(alloc, row, *session)?.exchange.output;
        let written = meeting.left(number).context("a session has no end")?;
        let name = session.last("session").unwrap_or("");
        same_bytes(alloc, name, written, &wanted)?;
    }
    Ok(())
}

// Compares the last frames of each worker, whose numbers come after those of so many sessions.
fn compare_frames(
    alloc: Global,
    row: Part<'_, '_>,
    sessions: usize,
    workers: u16,
    meeting: &Meeting,
) -> Result<()> {
    let (_, size) = Size::of(row)?;
    let stands = stands_of(alloc, size, row)?;
    for number in 0..workers {
        let wanted = last_frames(alloc, size, size.worker(number, workers), &stands)?;
        let place = sessions.saturating_add(number as usize);
        let frames = meeting.left(place).context("a worker has no end")?;
        same_bytes(alloc, "a worker's line", frames, &wanted)?;
    }
    Ok(())
}
