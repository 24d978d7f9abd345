//! One opening of the users on a disk in memory, and what is done with them then.
ghost use Rattle.std.specs.Prelude.{IfOk, List};
ghost use Rattle.user_admin.specs.declared.op.UserEntry.{UserEntry as Entry};
ghost use Rattle.user_admin.specs.Histories.{Opening};
ghost use Rattle.user_admin.specs.States.{StandsFor};

use crate::ask::{all_rows, outcome_of};
use crate::pair::pair_of;
use anyhow::{Context, Result, ensure};
use dxc_disk::{Disk, MemDisk, Tear};
use journal_core::JournalWhy;
use shelf_file::Shelf;
use std::alloc::Global;
use tl1_text::Sid;
use user_admin::{UserOpenFault, UserState};
use worked_common::{Line, add_texts, decimal, hex_of, joined, written_otherwise};

const MEMORY: &str = "want of memory";

// A disk with these bytes, no call of which fails.
fn disk_of(alloc: Global, bytes: Vec<u8>) -> Result<MemDisk> {
    MemDisk::new(alloc, bytes, Vec::new(alloc))
        .ok()
        .context(MEMORY)
}

// Why the users weren't taken up.
fn refusal_text<D: Disk>(alloc: Global, fault: &UserOpenFault<D>) -> Result<Vec<u8>> {
    let mut text = Vec::new(alloc);
    match fault {
        UserOpenFault::BadRecord(i, _) => {
            let number = decimal(alloc, *i as u64)?;
            add_texts(&["record ", number.as_str()], &mut text)?;
        }
        UserOpenFault::Journal(fault) => add_texts(&[word_of(&fault.why)], &mut text)?,
        UserOpenFault::Disk(_) => add_texts(&["disk"], &mut text)?,
        UserOpenFault::NoMemory(_) => add_texts(&["memory"], &mut text)?,
    }
    Ok(text)
}

fn word_of(why: &JournalWhy) -> &'static str {
    match why {
        JournalWhy::BadHeader(_) => "header",
        JournalWhy::Disk => "disk",
    }
}

// The users that a disk holds, or why they aren't taken up.
fn opened<D: Disk + Drop>(
    alloc: Global,
    shelf: &Shelf,
    disk: D,
) -> Result<Result<UserState<D>, Vec<u8>>>
    ensures { IfOk result
        (λ r. IfOk r (λ s. (o : Opening) × (h : List Entry) × StandsFor D.told D.state o s h)) }
{
    match UserState::open(alloc, shelf, disk) {
        Ok(state) => Ok(Ok(state)),
        Err(fault) => Ok(Err(refusal_text(alloc, &fault)?)),
    }
}

/// What an opening did otherwise than it must, and what is done after it, which the lines say. None where nothing was otherwise; the
/// journal is then what the disk holds.
pub fn run_fault(
    alloc: Global,
    shelf: &Shelf,
    journal: &mut Vec<u8>,
    opens: &str,
    lines: &[Line],
) -> Result<Option<String>> {
    let disk = disk_of(alloc, journal.clone()?)?;
    match opened(alloc, shelf, disk)? {
        Ok(state) => {
            ensure!(opens == "users", "the users are taken up");
            match ended(alloc, shelf.sid(), state, lines)? {
                Ok(disk) => fault_behind(alloc, shelf, disk, journal, lines),
                Err(why) => Ok(Some(why)),
            }
        }
        Err(why) => written_otherwise(alloc, "the opening", &why, opens.as_bytes()),
    }
}

// The disk after the steps, or what came of one otherwise than it must.
fn ended<D: Disk + Drop>(
    alloc: Global,
    sid: &Sid,
    mut state: UserState<D>,
    lines: &[Line],
) -> Result<Result<D, String>>
    requires stands { (o : Opening) × (h : List Entry) × StandsFor D.told D.state o state h }
{
    match steps_fault(alloc, sid, &mut state, lines)? {
        Some(why) => Ok(Err(why)),
        None => Ok(Ok(state.close())),
    }
}

// What a line after an opening is.
#[derive(Clone, Copy)]
enum Kind {
    // It is no more of this opening.
    Other,
    Step,
    Want,
    // It is about the disk after the steps.
    Disk,
}

fn kind_of(word: &str) -> Kind {
    match word {
        "row" | "open" | "file" => Kind::Other,
        "after" | "images" | "users" => Kind::Disk,
        "want" => Kind::Want,
        _ => Kind::Step,
    }
}

// What came of the steps otherwise than it must.
fn steps_fault<D: Disk>(
    alloc: Global,
    sid: &Sid,
    state: &mut UserState<D>,
    lines: &[Line],
) -> Result<Option<String>>
    requires stands { (o : Opening) × (h : List Entry) × StandsFor D.told D.state o state.old h }
{
    let mut found = Vec::new(alloc);
    for line in lines {
        if matches!(kind_of(line.word), Kind::Other) {
            break;
        }
        let why = step_fault(alloc, sid, state, *line, &mut found)?;
        if why.is_some() {
            return Ok(why);
        }
    }
    Ok(None)
}

// Makes a step, or tells what came of the last one otherwise than it must.
fn step_fault<D: Disk>(
    alloc: Global,
    sid: &Sid,
    state: &mut UserState<D>,
    line: Line,
    found: &mut Vec<u8>,
) -> Result<Option<String>>
    requires stands { (o : Opening) × (h : List Entry) × StandsFor D.told D.state o state.old h }
    ensures stands { (o : Opening) × (h : List Entry) × StandsFor D.told D.state o state.new h }
{
    match kind_of(line.word) {
        Kind::Want => written_otherwise(alloc, "a step", found, line.rest.as_bytes()),
        Kind::Step => {
            *found = outcome_of(alloc, sid, state, line)?;
            Ok(None)
        }
        Kind::Disk | Kind::Other => Ok(None),
    }
}

// What is wrong with the disk after an opening. The journal is what it holds.
fn fault_behind(
    alloc: Global,
    shelf: &Shelf,
    disk: MemDisk,
    journal: &mut Vec<u8>,
    lines: &[Line],
) -> Result<Option<String>> {
    *journal = disk.bytes().to_vec(alloc)?;
    for at in 0..lines.len() {
        match kind_of(lines[at].word) {
            Kind::Other => break,
            Kind::Disk => {
                let why = line_fault(alloc, shelf, &disk, lines[at], &lines[at + 1..])?;
                if why.is_some() {
                    return Ok(why);
                }
            }
            Kind::Step | Kind::Want => {}
        }
    }
    Ok(None)
}

// What is wrong with the disk by one line.
fn line_fault(
    alloc: Global,
    shelf: &Shelf,
    disk: &MemDisk,
    line: Line,
    behind: &[Line],
) -> Result<Option<String>> {
    match line.word {
        "after" => {
            let found = hex_of(alloc, disk.bytes())?;
            written_otherwise(alloc, "the journal", found.as_bytes(), line.rest.as_bytes())
        }
        "images" => images_fault(alloc, shelf, disk, line.rest, behind),
        _ => Ok(None),
    }
}

const TEARS: [Tear; 4] = [Tear::Lost, Tear::Whole, Tear::Front(20), Tear::Filled(0xA5)];

// What is wrong with what a crash leaves: from which call of the disk on, at how many apart.
fn images_fault(
    alloc: Global,
    shelf: &Shelf,
    disk: &MemDisk,
    rest: &str,
    behind: &[Line],
) -> Result<Option<String>> {
    let (from, apart) = pair_of(rest)?;
    ensure!(apart > 0, "no calls apart");
    for moment in from..disk.moment().saturating_add(1) {
        if moment % apart == 0 {
            let why = moment_fault(alloc, shelf, disk, moment, behind)?;
            if why.is_some() {
                return Ok(why);
            }
        }
    }
    Ok(None)
}

// What is wrong with what a crash in front of a call leaves.
fn moment_fault(
    alloc: Global,
    shelf: &Shelf,
    disk: &MemDisk,
    moment: usize,
    behind: &[Line],
) -> Result<Option<String>> {
    ensure!(moment <= disk.moment(), "no such call");
    for tear in TEARS {
        let image = disk.image_at(alloc, moment, tear).ok().context(MEMORY)?;
        let found = found_in(alloc, shelf, image)?;
        let why = users_otherwise(alloc, moment, &found, behind)?;
        if why.is_some() {
            return Ok(why);
        }
    }
    Ok(None)
}

// The users that an opening finds, or why it refuses them.
fn found_in(alloc: Global, shelf: &Shelf, journal: Vec<u8>) -> Result<Vec<u8>> {
    match opened(alloc, shelf, disk_of(alloc, journal)?)? {
        Ok(state) => all_rows(alloc, &state),
        Err(why) => Ok(why),
    }
}

// Why the users after a crash before a call aren't those of one of the first lines.
fn users_otherwise(
    alloc: Global,
    moment: usize,
    found: &[u8],
    lines: &[Line],
) -> Result<Option<String>> {
    let number = decimal(alloc, moment as u64)?;
    let who = joined(alloc, &["a crash in front of call ", number.as_str()])?;
    let mut why = None;
    for line in lines {
        if line.word != "users" {
            break;
        }
        why = written_otherwise(alloc, who.as_str(), found, line.rest.as_bytes())?;
        if why.is_none() {
            break;
        }
    }
    Ok(why)
}
