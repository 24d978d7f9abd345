ghost use Rattle.std.specs.Prelude.{◌≡◌, ◌≢◌, ℕ, true, List, [], ◌∷◌, Option, Err, IfOk, codes};
ghost use Rattle.dxc_args.specs.Lines.{IsLine, Spells, are_numbers, mode_in, peer_words, texts, is_dashed as dashed};
ghost use Rattle.std.specs.List.{list_any};

use crate::matching::name_matches;
use crate::number::{is_number, number_of, shape_of, workers_of};
use crate::workers::Workers;
use dxc_num::Shape;
use dxc_outside::Name;
use std::alloc::Global;

/// What the words ask the program to do.
#[derive(Drop)]
pub enum Line {
    /// One session over the terminal.
    Script { shelf: Name, journal: Name },
    /// One session over the terminal, on a new element of that shape whose journals are in memory.
    Trial { shape: Shape },
    /// The rows of the table, and how many records the journal has.
    Check { shelf: Name, journal: Name },
    /// The commands that make the same table on an element without connections.
    Export { shelf: Name, journal: Name },
    /// Sessions over TCP, and workers that carry frames; with a peer, its standby gets a copy of the journal.
    Serve(ServeLine),
    /// The copy of a journal at a second controller.
    Standby { journal: Name, address: Name },
    /// The load script of that number, on a disk in memory.
    Load { number: u64 },
}

/// What is served: the names of shelf file, journal, address and lines, the workers, and a peer if there is one.
#[derive(Drop)]
pub struct ServeLine {
    pub shelf: Name,
    pub journal: Name,
    pub address: Name,
    pub lines: Name,
    pub workers: Workers,
    pub peer: Option<Name>,
}

/// Why the words give no line.
#[derive(Clone, Copy, Debug, PartialEq, Eq)]
pub enum WordsFault {
    /// They are no line of the program.
    BadWords,
    NoMemory,
}

/// The most words of a line.
const MOST_WORDS: usize = 7;

/// The line that the words spell: `script SHELF JOURNAL`, `script MODULES SLOTS` with the numbers of a shape, `check SHELF JOURNAL`,
/// `export SHELF JOURNAL`, `serve SHELF JOURNAL ADDRESS LINES WORKERS` with 1 to 8 workers, and the same with PEER after it, `standby JOURNAL ADDRESS`, or
/// `load NUMBER` with a number of 64 bits. After `script` two words of digits alone are no names. No word begins with a dash.
pub fn line_of(alloc: Global, words: &[Name]) -> Result<Line, WordsFault>
    ensures line { IfOk result (λ l. IsLine words.now l) }
    ensures no_line { result ≡ Err WordsFault.BadWords → (l : Line) → IsLine words.now l → ⊥ }
{
    if words.is_empty() || words.len() > MOST_WORDS || any_dashed(words) {
        return Err(WordsFault::BadWords);
    }
    let matches = name_matches(alloc, words)?;
    let Some(mode) = matches.get_str("mode") else {
        return Err(WordsFault::BadWords);
    };
    line_with(alloc, mode, matches.get_raw("rest").unwrap_or(&[]))
}

// Whether some word begins with a dash.
fn any_dashed(words: &[Name]) -> bool
    ensures { result ≡ list_any dashed words.now }
{
    words.iter().any(|word| is_dashed(word.text().as_bytes()))
}

fn is_dashed(word: &[u8]) -> bool
    ensures { result ≡ dashed word.now }
{
    match word {
        [] => false,
        [first, ..] => *first == b'-',
    }
}

/// The first word of a line.
enum Mode {
    Script,
    Check,
    Export,
    Serve,
    Standby,
    Load,
}

fn mode_of(word: &str) -> Option<Mode>
    ensures { result ≡ mode_in word.now }
{
    match word {
        "script" => Some(Mode::Script),
        "check" => Some(Mode::Check),
        "export" => Some(Mode::Export),
        "serve" => Some(Mode::Serve),
        "standby" => Some(Mode::Standby),
        "load" => Some(Mode::Load),
        _ => None,
    }
}

// The line of a mode and the words after it.
fn line_with(alloc: Global, mode: &str, rest: &[&str]) -> Result<Line, WordsFault>
    ensures line { IfOk result (Spells (mode.now ∷ texts rest.now)) }
    ensures no_line { result ≡ Err WordsFault.BadWords → (l : Line)
        → Spells (mode.now ∷ texts rest.now) l → ⊥ }
{
    match mode_of(mode) {
        Some(Mode::Script) => script_line(alloc, rest),
        Some(Mode::Check) => {
            let (shelf, journal) = two_names(alloc, rest)?;
            Ok(Line::Check { shelf, journal })
        }
        Some(Mode::Export) => {
            let (shelf, journal) = two_names(alloc, rest)?;
            Ok(Line::Export { shelf, journal })
        }
        Some(Mode::Serve) => serve_line(alloc, rest),
        Some(Mode::Standby) => {
            let (journal, address) = two_names(alloc, rest)?;
            Ok(Line::Standby { journal, address })
        }
        Some(Mode::Load) => load_line(rest),
        None => Err(WordsFault::BadWords),
    }
}

fn script_line(alloc: Global, rest: &[&str]) -> Result<Line, WordsFault>
    ensures line { IfOk result (Spells (codes "script" ∷ texts rest.now)) }
    ensures no_line { result ≡ Err WordsFault.BadWords
        → (l : Line) → Spells (codes "script" ∷ texts rest.now) l → ⊥ }
{
    let (first, second) = two_names(alloc, rest)?;
    if is_number(first.text().as_bytes()) && is_number(second.text().as_bytes()) {
        return trial_line(&first, &second);
    }
    Ok(Line::Script {
        shelf: first,
        journal: second,
    })
}

// The line of two words after `script` that are digits alone.
fn trial_line(modules: &Name, slots: &Name) -> Result<Line, WordsFault>
    ensures line { IfOk result (Spells (codes "script" ∷ modules.now ∷ slots.now ∷ [])) }
    ensures no_line { are_numbers modules.now slots.now ≡ true → result ≡ Err WordsFault.BadWords
        → (l : Line) → Spells (codes "script" ∷ modules.now ∷ slots.now ∷ []) l → ⊥ }
{
    match shape_of(modules.text(), slots.text()) {
        Some(shape) => Ok(Line::Trial { shape }),
        None => Err(WordsFault::BadWords),
    }
}

// The names that two words are.
fn two_names(alloc: Global, rest: &[&str]) -> Result<(Name, Name), WordsFault>
    ensures names { IfOk result (λ p. texts rest.now ≡ p.0 ∷ p.1 ∷ []) }
    ensures other { result ≡ Err WordsFault.BadWords → (a : List ℕ) → (b : List ℕ)
        → texts rest.now ≢ a ∷ b ∷ [] }
{
    match rest {
        [first, second] => Ok((name_of(alloc, first)?, name_of(alloc, second)?)),
        _ => Err(WordsFault::BadWords),
    }
}

fn serve_line(alloc: Global, rest: &[&str]) -> Result<Line, WordsFault>
    ensures line { IfOk result (Spells (codes "serve" ∷ texts rest.now)) }
    ensures no_line { result ≡ Err WordsFault.BadWords → (l : Line)
        → Spells (codes "serve" ∷ texts rest.now) l → ⊥ }
{
    match rest {
        [shelf, journal, address, lines, workers, last @ ..] => {
            let Some(workers) = workers_of(workers) else {
                return Err(WordsFault::BadWords);
            };
            let peer = peer_in(alloc, last)?;
            Ok(Line::Serve(ServeLine {
                shelf: name_of(alloc, shelf)?,
                journal: name_of(alloc, journal)?,
                address: name_of(alloc, address)?,
                lines: name_of(alloc, lines)?,
                workers,
                peer,
            }))
        }
        _ => Err(WordsFault::BadWords),
    }
}

// The peer that the last word of `serve` names, where there is one.
fn peer_in(alloc: Global, last: &[&str]) -> Result<Option<Name>, WordsFault>
    ensures peer { IfOk result (λ p. texts last.now ≡ peer_words p) }
    ensures no_peer { result ≡ Err WordsFault.BadWords → (p : Option (List ℕ))
        → texts last.now ≢ peer_words p }
{
    match last {
        [] => Ok(None),
        [peer] => Ok(Some(name_of(alloc, peer)?)),
        _ => Err(WordsFault::BadWords),
    }
}

fn load_line(rest: &[&str]) -> Result<Line, WordsFault>
    ensures line { IfOk result (Spells (codes "load" ∷ texts rest.now)) }
    ensures no_line { result ≡ Err WordsFault.BadWords → (l : Line)
        → Spells (codes "load" ∷ texts rest.now) l → ⊥ }
{
    match rest {
        [number] => match number_of(number) {
            Some(number) => Ok(Line::Load { number }),
            None => Err(WordsFault::BadWords),
        },
        _ => Err(WordsFault::BadWords),
    }
}

// The name that a text is.
fn name_of(alloc: Global, text: &str) -> Result<Name, WordsFault>
    ensures name { IfOk result (λ n. n ≡ text.now) }
    ensures only_memory { result ≢ Err WordsFault.BadWords }
{
    match text.to_string(alloc) {
        Ok(text) => Ok(Name::of(text)),
        Err(_) => Err(WordsFault::NoMemory),
    }
}
