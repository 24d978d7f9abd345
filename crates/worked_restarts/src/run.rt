use crate::audit::Audit;
use crate::element::Element;
use crate::stale::run_stale;
use anyhow::{Context, Result, bail, ensure};
use craft_session::{Place, SessionEnd, serve_session};
use dxc_disk::Disk;
use dxc_outside::Gate;
use std::alloc::Global;
use std::sync::Wait;
use worked_common::{Levers, Part};
use worked_frames::{
    Carrier, Crew, Laid, Talk, compare_counts, compare_frames, disk_of, lay, same_as_said, set,
    users_disks,
};

/// Opens an element for the row and serves its sessions. An error tells the first thing that isn't as it must be.
pub fn run_row<R: Wait>(alloc: Global, rt: &R, row: Part<'_, '_>) -> Result<()> {
    let sessions = row.parts(alloc, &["session"])?;
    let levers = Levers::new(alloc).ok().context("no memory")?;
    let mut users = users_disks(alloc, sessions.len().saturating_add(1))?;
    let disk = disk_of(alloc, row, &levers)?;
    if row.has("held") {
        run_stale(alloc, rt, row, disk, &mut users, &sessions)
    } else {
        run_sessions(alloc, rt, row, disk, &mut users, &levers, &sessions)
    }
}

// Serves the sessions on an element of the row, whose controllers find their users on these disks.
fn run_sessions<D: Disk + Drop, U: Disk + Drop, R: Wait>(
    alloc: Global,
    rt: &R,
    row: Part<'_, '_>,
    disk: D,
    users: &mut Vec<U>,
    levers: &Levers,
    sessions: &[Part<'_, '_>],
) -> Result<()> {
    let Laid {
        ground,
        mover,
        seats,
    } = lay(alloc, row)?;
    let crew = Crew::of(alloc, &ground.fabric, seats)?;
    let element = Element::open(alloc, ground, mover, disk, users, sessions.len())?;
    let mut gate = Carrier::new(alloc, crew);
    serve_all(alloc, rt, Some(element), users, &mut gate, levers, sessions)
}

// Serves the sessions, which stand the last one first, each on what the one before it left. Nothing is left where another controller finds the
// registers strange, as is said.
fn serve_all<D: Disk + Drop, U: Disk + Drop, R: Wait>(
    alloc: Global,
    rt: &R,
    mut held: Option<Element<D, U>>,
    users: &mut Vec<U>,
    gate: &mut Carrier,
    levers: &Levers,
    sessions: &[Part<'_, '_>],
) -> Result<()> {
    for session in sessions.iter().rev() {
        set(levers, *session)?;
        hand_on(alloc, rt, &mut held, users, *session)?;
        let Some(element) = held.as_mut() else {
            return Ok(());
        };
        set(levers, *session)?;
        serve(alloc, rt, element, gate, levers, *session)?;
    }
    Ok(())
}

// Has another controller take over where the session says so. Nothing is held after it where it finds the registers strange.
fn hand_on<D: Disk + Drop, U: Disk + Drop, R: Wait>(
    alloc: Global,
    rt: &R,
    held: &mut Option<Element<D, U>>,
    users: &mut Vec<U>,
    session: Part<'_, '_>,
) -> Result<()> {
    let strange = session.has("strange");
    if !strange && !session.has("adopts") {
        return Ok(());
    }
    if let Some(element) = held.take() {
        *held = element.handed_on(alloc, users, rt)?;
    }
    ensure!(held.is_none() == strange, "the registers were otherwise");
    Ok(())
}

// Serves one session at the next place.
fn serve<D: Disk + Drop, U: Disk + Drop, R: Wait>(
    alloc: Global,
    rt: &R,
    element: &mut Element<D, U>,
    gate: &mut Carrier,
    levers: &Levers,
    session: Part<'_, '_>,
) -> Result<()> {
    gate.set(alloc, session)?;
    let end = serve_next(alloc, rt, &mut element.places, session, gate)?;
    ensure!(ends_so(end, session.has("stop")), "it ended otherwise");
    compare_counts(alloc, gate, levers, session)?;
    compare_frames(alloc, gate, session)?;
    compare_words(alloc, rt, &mut element.audit, session)
}

// Whether a session may end so where the gate stops, or doesn't.
fn ends_so(end: SessionEnd, stops: bool) -> bool {
    match end {
        SessionEnd::Stopped => stops,
        SessionEnd::End => !stops,
        _ => false,
    }
}

/// Serves the session at the next place, and compares what it was written. How it ended.
// It alone owns the place, since a place is dear to drop at each failure.
pub fn serve_next<D: Disk + Drop, U: Disk + Drop, G: Gate, R: Wait>(
    alloc: Global,
    rt: &R,
    places: &mut Vec<Place<D, U>>,
    session: Part<'_, '_>,
    gate: &mut G,
) -> Result<SessionEnd> {
    let Some(mut place) = places.pop() else {
        bail!("no place is left");
    };
    serve_at(alloc, rt, &mut place, session, gate)
}

fn serve_at<D: Disk + Drop, U: Disk + Drop, G: Gate, R: Wait>(
    alloc: Global,
    rt: &R,
    place: &mut Place<D, U>,
    session: Part<'_, '_>,
    gate: &mut G,
) -> Result<SessionEnd> {
    let mut talk = Talk::of(alloc, session)?;
    let end = serve_session(place, &mut talk.link, &mut talk.clock, gate, rt);
    talk.compare(alloc)?;
    Ok(end)
}

// Compares the register words after the session, where they are said.
fn compare_words<D: Disk + Drop, R: Wait>(
    alloc: Global,
    rt: &R,
    audit: &mut Audit<D>,
    session: Part<'_, '_>,
) -> Result<()> {
    if !session.has("words") {
        return Ok(());
    }
    let words = audit.words(alloc, rt)?;
    same_as_said(alloc, session, "words", &words)
}
