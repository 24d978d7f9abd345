// Looks for the comma after a value, eight bytes at once.
ghost use Rattle.std.specs.Prelude.{◌≡◌, ℕ, ◌+◌, ◌<◌, ◌≤◌, ◌==◌, true, false, length, slice_index};
ghost use Rattle.tl1_text.specs.Reading.{first_set as lowest};
ghost use Rattle.tl1_text.specs.Spans.{IsBlockIn};
ghost use Rattle.tl1_text.specs.Values.{IsFirst, begins_quoted};

use std::simd::prelude::*;
use tl1_text::{Param, Span, first_param};

/// So many bytes are looked at once: most AIDs have no more.
const LANES: usize = 8;

/// The first parameter of a block.
#[inline(always)]
pub fn first_of(unit: &[u8], block: Span) -> Param
    requires short { length unit.now ≤ 2047 }
    requires block { IsBlockIn unit.now block }
    ensures { IsFirst unit.now block result }
{
    if is_quoted(block.text(unit)) {
        return first_param(unit, block);
    }
    let end = block.end as usize;
    let at = comma_in(unit, block.start as usize, end);
    if at == end {
        return Param {
            value: block,
            others: None,
        };
    }
    Param {
        value: Span {
            start: block.start,
            end: at as u16,
        },
        others: Some(Span {
            start: (at + 1) as u16,
            end: block.end,
        }),
    }
}

/// Whether a text begins with a quote.
#[inline(always)]
pub fn is_quoted(text: &[u8]) -> bool
    ensures { result ≡ begins_quoted text.now }
{
    match text {
        [] => false,
        [first, ..] => *first == b'"',
    }
}

/// The place of the first comma in a part of a text, or the part's end.
#[inline(always)]
fn comma_in(text: &[u8], from: usize, to: usize) -> usize
    requires part { (from ≤ to) × (to ≤ length text.now) }
    ensures within { (from ≤ result) × (result ≤ to) }
    ensures front { (k : ℕ) → from ≤ k → k < result → (slice_index text.now k == 44) ≡ false }
    ensures stop { result < to → (slice_index text.now result == 44) ≡ true }
{
    let passed = from + front_of(text, from).min(to - from);
    for at in passed..to {
        if text[at] == b',' {
            return at;
        }
    }
    to
}

/// How many bytes from a place on are known to be no comma.
#[inline(always)]
fn front_of(text: &[u8], from: usize) -> usize
    requires { from ≤ length text.now }
    ensures within { from + result ≤ length text.now }
    ensures front { (k : ℕ) → from ≤ k → k < from + result
        → (slice_index text.now k == 44) ≡ false }
{
    if text.len() - from < LANES {
        return 0;
    }
    front_at(text, from)
}

/// How many of eight bytes stand in front of the first comma.
#[inline(always)]
fn front_at(text: &[u8], at: usize) -> usize
    requires { at + 8 ≤ length text.now }
    ensures within { result ≤ 8 }
    ensures front { (k : ℕ) → at ≤ k → k < at + result → (slice_index text.now k == 44) ≡ false }
{
    let bytes = u8x8::from_slice(&text[at..]);
    let commas = bytes.simd_eq(u8x8::splat(b','));
    first_set(commas.to_bitmask())
}

/// The place of the lowest bit that is set, or eight.
#[inline(always)]
fn first_set(mask: u64) -> usize
    ensures { result ≡ lowest mask 8 }
{
    if mask == 0 {
        LANES
    } else {
        mask.trailing_zeros() as usize
    }
}
