use dxc_args::{JournalBad, Status};
use dxc_model::Uid;
use dxc_num::Shape;
use dxc_outside::Name;
use shelf_file::{ShelfFault, ShelfKey};
use std::fmt::{self, Display, Formatter, Write};
use std::str;

/// Tells of a status other than Done on standard error: by a line of its own, and by a second one on what the status holds, of CannotOpen
/// on what wasn't opened, of a refused record of the users' journal on whom it is about. What can't be written there changes no status.
pub fn tell_status<R: Eprint, E: Display>(
    rt: &R,
    status: Status,
    words: &[Name],
    refusal: Option<&E>,
    user: Option<Uid>,
) {
    let why = Why {
        status,
        words,
        refusal,
        user,
    };
    let _ = eprint!(rt; "{}{why}", fault_text(status));
}

/// Tells of a standby's end on standard error: when and how it ended, and what its copy stands for. What can't be written there changes
/// nothing.
pub fn tell_standby<R: Eprint, M: Display, C: Display>(
    rt: &R,
    status: Status,
    now: &M,
    copied: &C,
) {
    let _ = eprint!(rt;
        "dxc: {now}: standby ended, {}; {copied}\n",
        end_text(status)
    );
}

// How a standby ended, by its status.
fn end_text(status: Status) -> &'static str {
    match status {
        Status::Done => "its primary hung up",
        Status::Link => "its connection failed",
        Status::Disk => "its disk failed",
        Status::BadMessage => "what came is no message",
        Status::Spent => "its read limit was reached",
        _ => "no primary could call",
    }
}

// The line that tells of a status other than Done.
fn fault_text(status: Status) -> &'static str {
    match status {
        Status::Done => "",
        Status::BadWords => "dxc: words not understood\n",
        Status::BadShelf(_) => "dxc: shelf file refused\n",
        Status::BadJournal(_) => "dxc: journal refused\n",
        Status::Disk => "dxc: journal disk failed\n",
        Status::CannotOpen => "dxc: cannot open\n",
        Status::NoThread => "dxc: cannot start a thread\n",
        Status::NoMemory => "dxc: no memory\n",
        Status::Link => "dxc: terminal failed\n",
        Status::Stopped => "dxc: stopped\n",
        Status::Spent => "dxc: read limit reached\n",
        Status::BadMessage => "dxc: standby stream refused\n",
        Status::NotEmpty => "dxc: standby journal not empty\n",
    }
}

// What the status holds, as a line. Nothing of a PID, a salt or a digest is in it.
#[derive(Drop)]
struct Why<'a, E> {
    status: Status,
    words: &'a [Name],
    refusal: Option<&'a E>,
    user: Option<Uid>,
}

impl<E: Display> Display for Why<'_, E> {
    fn fmt<W: Write>(&self, f: &mut Formatter<W>) -> fmt::Result {
        match self.status {
            Status::BadWords => write_words_fault(f, self.words),
            Status::CannotOpen => write_refusal(f, self.refusal),
            Status::BadShelf(fault) => write_shelf_fault(f, fault),
            Status::BadJournal(JournalBad::Header(bytes)) => write_header(f, "journal", &bytes),
            Status::BadJournal(JournalBad::Record(number)) => {
                writeln!(f, "dxc: record {number}, counted from 0, makes no change")
            }
            Status::BadJournal(JournalBad::UsersHeader(bytes)) => write_header(
                f,
                "users' journal",
                &bytes,
            ),
            Status::BadJournal(JournalBad::UsersRecord(number)) => {
                write_at_odds(f, number, self.user)
            }
            _ => Ok(()),
        }
    }
}

// How many words a line of the mode has with the mode itself, at least and at most; None: there is no such mode.
fn words_of(mode: &str) -> Option<(usize, usize)> {
    match mode {
        "script" | "check" | "export" | "standby" => Some((3, 3)),
        "serve" => Some((6, 7)),
        "load" => Some((2, 2)),
        _ => None,
    }
}

// The word of a mode that stands for a number; None: it has none.
fn number_of_mode<'a>(mode: &str, words: &'a [Name]) -> Option<&'a Name> {
    match mode {
        "serve" => words.get(5),
        "load" => words.get(1),
        _ => None,
    }
}

// The first word that stands in no line of the program.
fn word_at_fault(words: &[Name]) -> Option<&Name> {
    let mode = words.first()?;
    let Some((least, most)) = words_of(mode.text()) else {
        return Some(mode);
    };
    if let Some(dashed) = words.iter().find(|word| word.text().starts_with('-')) {
        return Some(dashed);
    }
    if words.len() < least {
        return None;
    }
    // One too many, or else a number: of workers, or of the load.
    words.get(most).or(number_of_mode(mode.text(), words))
}

// A number that is no shape's: its word, what it counts, and the most of it.
#[derive(Clone, Copy)]
struct BadCount<'a> {
    word: &'a str,
    counted: &'static str,
    least: u16,
    most: u16,
}

impl BadCount<'_> {
    // Whether the word is a number in these limits after all, without a leading zero.
    fn is_good(&self) -> bool {
        match self.word.parse::<u16>() {
            Ok(count) => !self.word.starts_with('0') && self.least <= count && count <= self.most,
            Err(_) => false,
        }
    }
}

fn is_number(word: &str) -> bool {
    !word.is_empty() && word.as_bytes().iter().all(|byte| byte.is_ascii_digit())
}

// The first number after `script` that is none of a shape. None: there aren't two numbers, or they are a shape.
fn count_at_fault(words: &[Name]) -> Option<BadCount<'_>> {
    let [mode, modules, slots] = words else {
        return None;
    };
    if mode.text() != "script" || !is_number(modules.text()) || !is_number(slots.text()) {
        return None;
    }
    let modules = BadCount {
        word: modules.text(),
        counted: "modules",
        least: 2,
        most: Shape::MODULES,
    };
    let slots = BadCount {
        word: slots.text(),
        counted: "slots",
        least: 1,
        most: Shape::SLOTS,
    };
    if modules.is_good() {
        Some(slots)
    } else {
        Some(modules)
    }
}

fn write_words_fault<W: Write>(f: &mut Formatter<W>, words: &[Name]) -> fmt::Result {
    match count_at_fault(words) {
        Some(bad) => writeln!(
            f,
            "dxc: {} is no number of {}, {} to {} without a leading zero; ./{} names a file",
            bad.word, bad.counted, bad.least, bad.most, bad.word
        ),
        None => write_word(f, words),
    }
}

fn write_word<W: Write>(f: &mut Formatter<W>, words: &[Name]) -> fmt::Result {
    match word_at_fault(words) {
        Some(word) => writeln!(
            f,
            "dxc: {:?} can't stand there; dxc --help tells the words",
            word.text()
        ),
        None => writeln!(
            f,
            "dxc: a word is missing, or isn't UTF-8; dxc --help tells the words"
        ),
    }
}

fn key_name(key: ShelfKey) -> &'static str {
    match key {
        ShelfKey::Sid => "sid",
        ShelfKey::Modules => "modules",
        ShelfKey::Slots => "slots",
        ShelfKey::Equipped => "equipped",
        ShelfKey::Idle => "idle",
        ShelfKey::User => "user",
        ShelfKey::Uid => "uid",
        ShelfKey::Class => "class",
        ShelfKey::Salt => "salt",
        ShelfKey::Digest => "digest",
    }
}

fn write_shelf_fault<W: Write>(f: &mut Formatter<W>, fault: ShelfFault) -> fmt::Result {
    match fault {
        ShelfFault::TooLarge => writeln!(f, "dxc: the shelf file has more than 65536 bytes"),
        ShelfFault::NotToml => writeln!(f, "dxc: the shelf file is no TOML document"),
        ShelfFault::Missing { key, user } => write_key(f, key, user, "isn't there"),
        ShelfFault::Bad { key, user } => write_key(f, key, user, "isn't as it has to be"),
        ShelfFault::TwoUsers { user } => writeln!(
            f,
            "dxc: user {user} has the name of an earlier one"
        ),
        ShelfFault::NoMemory => Ok(()),
    }
}

// The key, at the top or of a user, which are counted from 1.
fn write_key<W: Write>(f: &mut Formatter<W>, key: ShelfKey, user: u16, what: &str) -> fmt::Result {
    match user {
        0 => writeln!(f, "dxc: key {} {what}", key_name(key)),
        _ => writeln!(f, "dxc: key {} of user {user} {what}", key_name(key)),
    }
}

// Where nothing was refused it was a standby that can't be called.
fn write_refusal<W: Write, E: Display>(f: &mut Formatter<W>, refusal: Option<&E>) -> fmt::Result {
    match refusal {
        Some(refusal) => writeln!(f, "dxc: {refusal}"),
        None => writeln!(f, "dxc: 16 accepts in a row failed"),
    }
}

// A record of the users' journal that makes no change: of whom, where its name can be read.
fn write_at_odds<W: Write>(f: &mut Formatter<W>, number: u32, user: Option<Uid>) -> fmt::Result {
    if let Some(uid) = user {
        if let Ok(name) = str::from_utf8(uid.bytes()) {
            write!(
                f,
                "dxc: user {name:?}: shelf file and users' journal disagree: "
            )?;
            return writeln!(f, "its record {number}, counted from 0, makes no change");
        }
    }
    writeln!(
        f,
        "dxc: record {number} of the users' journal, counted from 0, makes no change"
    )
}

fn write_header<W: Write>(f: &mut Formatter<W>, file: &str, bytes: &[u8; 32]) -> fmt::Result {
    write!(f, "dxc: the {file} begins")?;
    for byte in bytes {
        write!(f, " {byte:02x}")?;
    }
    f.write_str("\n")
}
