//! What the lines of a session say.

use crate::cue::Cue;
use crate::gate::Act;
use anyhow::Result;
use std::alloc::Global;
use worked_common::{Exchange, Line, Part, add_report, decimal, number_of, two};

/// What comes from a session's caller and must be written to him, and how many bytes stand in front of each cue.
#[derive(Drop)]
pub struct Session {
    pub exchange: Exchange,
    pub cues: Vec<(usize, Cue)>,
}

impl Session {
    fn take(&mut self, alloc: Global, sid: &str, line: Line<'_>) -> Result<()> {
        if line.word == "reports" {
            add_reports(alloc, sid, line.rest, &mut self.exchange.output)?;
        } else {
            let _ = self.exchange.take(sid, line.word, line.rest)?;
        }
        self.cues.push((self.exchange.input.len(), cue_of(line)?))?;
        Ok(())
    }
}

/// The session of these lines, at an element of this name.
pub fn session_of(alloc: Global, sid: &str, lines: Part<'_, '_>) -> Result<Session> {
    let mut session = Session {
        exchange: Exchange::new(alloc),
        cues: Vec::new(alloc),
    };
    for line in lines.lines {
        session.take(alloc, sid, *line)?;
    }
    Ok(session)
}

fn cue_of(line: Line<'_>) -> Result<Cue> {
    Ok(match line.word {
        "quiet" => Cue::Quiet,
        "point" => Cue::Reach(number_of(line.rest)? as usize),
        "after" => Cue::Await(number_of(line.rest)? as usize),
        "frames" => Cue::Frames,
        _ => Cue::Next,
    })
}

// Reports from the one number to the other, which have the two texts in turn.
fn add_reports(alloc: Global, sid: &str, rest: &str, into: &mut Vec<u8>) -> Result<()> {
    let (first, rest) = two(rest)?;
    let (last, texts) = two(rest)?;
    let (one, other) = two(texts)?;
    let mut text = (one, other);
    for number in number_of(first)?..=number_of(last)? {
        add_report(sid, decimal(alloc, number)?.as_str(), text.0, into)?;
        text = (text.1, text.0);
    }
    Ok(())
}

/// What the gate of the session of these lines does at the row's asking.
pub fn act_of(session: Part<'_, '_>) -> Result<Option<Act>> {
    if let Some(points) = session.last("hold") {
        let (here, there) = two(points)?;
        return Ok(Some(Act::Hold {
            here: number_of(here)? as usize,
            there: number_of(there)? as usize,
        }));
    }
    Ok(session.has("stop").then_some(Act::Stop))
}
