ghost use Rattle.std.specs.Prelude.{◌≡◌, ◌≤◌, true, false, length, option_map};
ghost use Rattle.tl1_text.specs.Tags.{is_ctag as reads_as_ctag, is_short as short, is_zeros, as_ctag, ctag_of as tag_in, before_colon as front, behind_colon as back};
ghost use Rattle.tl1_text.specs.Spans.{AreBlocksOf};

use crate::front::front_of;
use crate::letter::is_letter_or_digit;
use crate::span::Blocks;
use arrayvec::ArrayVec;
use std::marker::Model;

/// A correlation tag (GR-831), by which a response names its command: one to six ASCII letters and digits that
/// aren't all `0`, echoed as written.
#[derive(PartialEq, Eq, Drop)]
pub struct Ctag {
    text: ArrayVec<u8, 6>,
}

impl Model for Ctag {
    ghost use Rattle.std.specs.Prelude.{◌≡◌, ℕ, List, true};
    ghost use Rattle.tl1_text.specs.Tags.{is_ctag};

    ghost Value = { List ℕ };

    ghost view = { λ c. c.text.items };

    ghost invariant = { λ c. is_ctag c.text.items ≡ true };

    ghost inverse = { λ bytes. record { text = record { items = bytes } } };
}

impl Ctag {
    /// The most bytes of a tag.
    pub const MOST: usize = 6;

    /// None exactly where the bytes are no tag.
    pub fn of(bytes: &[u8]) -> Option<Ctag>
        ensures { result ≡ as_ctag bytes.now }
    {
        if !is_short(bytes) {
            return None;
        }
        if zeros(bytes) {
            return None;
        }
        let mut text = ArrayVec::new();
        for at in 0..bytes.len() {
            if !is_letter_or_digit(bytes[at]) {
                return None;
            }
            text.push(bytes[at]);
        }
        Some(Ctag { text })
    }

    /// The bytes as they were written.
    pub fn bytes(&self) -> &[u8]
        ensures bytes { result.now ≡ self.now }
        ensures short { length result.now ≤ 6 }
        ensures valid { reads_as_ctag self.now ≡ true }
    {
        self.text.as_slice()
    }
}

fn is_short(bytes: &[u8]) -> bool
    ensures { result ≡ short 6 bytes.now }
{
    (1..=Ctag::MOST).contains(&bytes.len())
}

fn zeros(bytes: &[u8]) -> bool
    ensures { result ≡ is_zeros bytes.now }
{
    bytes.iter().all(|b| *b == b'0')
}

/// The CTAG of a unit: its fourth block, cut at colons outside quotes, where that is a CTAG.
///
/// The unit need not be in the grammar.
#[tactic(auto, unfolding(crate::specs::Tags::ctag_of))]
pub fn ctag_of(unit: &[u8]) -> Option<Ctag>
    ensures { result ≡ tag_in unit.now }
{
    let tid = behind_colon(unit)?;
    let aid = behind_colon(tid)?;
    let rest = behind_colon(aid)?;
    Ctag::of(before_colon(rest))
}

/// The same by the unit's blocks, with no further pass over its bytes.
pub fn ctag_in(unit: &[u8], blocks: &Blocks) -> Option<Ctag>
    requires { AreBlocksOf unit.now blocks.now.block.items }
    ensures { result ≡ tag_in unit.now }
{
    Ctag::of(blocks.block[3].text(unit))
}

/// The bytes before the first colon outside quotes, or all of them.
fn before_colon(text: &[u8]) -> &[u8]
    ensures { result.now ≡ front false text.now }
{
    let mut quoted = false;
    for at in front_of(text)..text.len() {
        let b = text[at];
        if b == b':' {
            if !quoted {
                return &text[..at];
            }
        } else if b == b'"' {
            quoted = !quoted;
        }
    }
    text
}

/// The bytes after the first colon outside quotes, where there is one.
fn behind_colon(text: &[u8]) -> Option<&[u8]>
    ensures { option_map (λ t. t.now) result ≡ back false text.now }
{
    let mut quoted = false;
    for at in front_of(text)..text.len() {
        let b = text[at];
        if b == b':' {
            if !quoted {
                return Some(&text[at + 1..]);
            }
        } else if b == b'"' {
            quoted = !quoted;
        }
    }
    None
}
