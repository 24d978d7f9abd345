// Reads units out of pieces of a stream.
ghost use Rattle.std.specs.Prelude.{◌≡◌, ◌≤◌, ◌<◌, ◌+◌, ℕ, List, [], ◌∷◌, ◌++◌, length, take, true, false};
ghost use Rattle.tl1_text.specs.Reading.{Holds, IsKind, IsRun};
ghost use Rattle.tl1_text.specs.Units.{is_gap as gap, is_quoted, Begins};

use crate::kept::{Kept, LIMIT};
use crate::look::run_of;
use std::marker::Model;

/// What a piece of the stream ended.
#[derive(Clone, Copy, PartialEq, Eq)]
pub enum UnitKind {
    /// A unit of at most 2,048 bytes.
    Whole,
    /// A longer unit.
    TooLong,
    /// No unit: there is more to come.
    More,
}

/// How many bytes of a piece were taken, and what ended with the last of them.
#[derive(Clone, Copy, PartialEq, Eq)]
pub struct Fed {
    pub taken: usize,
    pub unit: UnitKind,
}

/// Cuts a stream of bytes into units, in whatever pieces the bytes come.
///
/// Before a unit blanks, CR and LF fall away. A unit ends at its first `;` outside quotes, where that is at
/// most its 2,048th byte, and else at the first `;` after its 2,048th byte.
#[derive(Drop)]
pub struct UnitReader {
    kept: Kept,
    quoted: bool,
    ended: bool,
}

impl Model for UnitReader {
    ghost use Rattle.std.specs.Prelude.{◌≡◌, false};
    ghost use Rattle.tl1_text.specs.Units.{is_quoted};
    ghost use Rattle.tl1_text.specs.Reading.{Reader};

    ghost Value = { Reader };

    ghost view = { λ r. record { kept = r.kept; ended = r.ended } };

    ghost invariant = { λ r. r.ended ≡ false → r.quoted ≡ is_quoted r.kept };
}

impl UnitReader {
    ghost use Rattle.tl1_text.specs.Reading.{Reader, hand, Made, IsFed};

    /// A reader that has read nothing.
    pub fn new() -> UnitReader
        ensures { Holds [] (hand result) }
    {
        UnitReader {
            kept: Kept::new(),
            quoted: false,
            ended: false,
        }
    }

    /// Takes bytes up to and with the one that ends a unit, or the whole piece where none does.
    ///
    /// However the stream is cut into pieces, the units are the same.
    pub fn feed(&mut self, piece: &[u8]) -> Fed
        ensures fed { (bs : List ℕ) → Holds bs (hand self.old)
            → IsFed bs piece.now result self.new }
        ensures within { result.taken ≤ length piece.now }
        ensures some { 0 < length piece.now → 0 < result.taken }
        ensures short { result.unit ≡ UnitKind.Whole → length self.new.kept ≤ 2047 }
    {
        let mut at = 0;
        while at < piece.len() {
            at += self.take_run(&piece[at..]);
            if at < piece.len() {
                match self.take(piece[at]) {
                    UnitKind::More => at += 1,
                    unit => {
                        return Fed {
                            taken: at + 1,
                            unit,
                        };
                    }
                }
            }
        }
        Fed {
            taken: piece.len(),
            unit: UnitKind::More,
        }
    }

    /// The text of the unit that `feed` told to be whole, without its `;`, until the next `feed`.
    pub fn unit(&self) -> &[u8]
        ensures { result.now ≡ self.now.kept }
    {
        self.kept.as_slice()
    }

    /// Lets go of a unit that ended, and writes over all that it had kept but the unit in hand: for units that nobody is to find in memory.
    pub fn wipe(&mut self)
        ensures { self.new ≡ record { kept = hand self.old; ended = false } }
    {
        self.begin();
        self.kept.wipe();
    }

    /// Takes the bytes in front of the first `;` or quote, and answers how many these are: none before a unit's first byte.
    fn take_run(&mut self, rest: &[u8]) -> usize
        ensures within { result ≤ length rest.now }
        ensures held { (bs : List ℕ) → Holds bs (hand self.old)
            → Holds (bs ++ take result rest.now) (hand self.new) }
    {
        self.begin();
        if self.kept.is_empty() && begins_with_gap(rest) {
            return 0;
        }
        let count = run_of(rest);
        keep_run(&mut self.kept, &rest[..count]);
        count
    }

    fn take(&mut self, b: u8) -> UnitKind
        ensures made { (bs : List ℕ) → Holds bs (hand self.old)
            → Made (bs ++ b ∷ []) result self.new }
        ensures short { result ≡ UnitKind.Whole → length self.new.kept ≤ 2047 }
    {
        self.begin();
        let unit = keep(&mut self.kept, &mut self.quoted, b);
        self.ended = !matches!(unit, UnitKind::More);
        unit
    }

    /// Lets go of a unit that ended.
    fn begin(&mut self)
        ensures { self.new ≡ record { kept = hand self.old; ended = false } }
    {
        if self.ended {
            self.kept.clear();
            self.quoted = false;
            self.ended = false;
        }
    }
}

/// Keeps a byte of the unit in hand, or tells how it ended the unit.
///
/// A unit that is too long keeps its first 2,048 bytes, and that they are so many is all that tells it.
fn keep(kept: &mut Kept, quoted: &mut bool, b: u8) -> UnitKind
    requires { quoted.old ≡ is_quoted kept.old }
    ensures made { (bs : List ℕ) → Holds bs kept.old → IsKind (bs ++ b ∷ []) result kept.new }
    ensures quoted { result ≡ UnitKind.More → quoted.new ≡ is_quoted kept.new }
    ensures short { result ≡ UnitKind.Whole → length kept.new ≤ 2047 }
{
    if kept.len() == LIMIT {
        return if b == b';' {
            UnitKind::TooLong
        } else {
            UnitKind::More
        };
    }
    if b == b';' && !*quoted {
        return UnitKind::Whole;
    }
    if kept.is_empty() && is_gap(b) {
        return UnitKind::More;
    }
    kept.push(b);
    *quoted = *quoted != (b == b'"');
    UnitKind::More
}

/// Keeps bytes among which are neither `;` nor quotes, as far as there is room for them.
fn keep_run(kept: &mut Kept, text: &[u8])
    requires run { IsRun text.now }
    requires begins { kept.old ≡ [] → Begins text.now }
    ensures held { (bs : List ℕ) → Holds bs kept.old → Holds (bs ++ text.now) kept.new }
    ensures quoted { is_quoted kept.new ≡ is_quoted kept.old }
{
    let room = LIMIT - kept.len();
    if text.len() <= room {
        kept.extend(text);
    } else {
        kept.extend(&text[..room]);
    }
}

fn begins_with_gap(text: &[u8]) -> bool
    ensures { result ≡ false → Begins text.now }
{
    !text.is_empty() && is_gap(text[0])
}

/// A blank, CR or LF.
fn is_gap(b: u8) -> bool
    ensures { result ≡ gap b }
{
    matches!(b, b' ' | b'\r' | b'\n')
}
