// Looks for the end of a run of bytes, sixteen at once.
ghost use Rattle.std.specs.Prelude.{◌≡◌, ◌≤◌, ◌<◌, ◌+◌, length, take, drop};
ghost use Rattle.tl1_text.specs.Reading.{IsRun, first_set as lowest};

use crate::stops::LANES;
use std::simd::prelude::*;

/// How many bytes stand in front of the first `;` or quote.
pub fn run_of(text: &[u8]) -> usize
    ensures within { result ≤ length text.now }
    ensures run { IsRun (take result text.now) }
{
    let mut at = 0;
    while text.len() - at >= LANES {
        let run = run_at(text, at);
        at += run;
        if run < LANES {
            return at;
        }
    }
    run_to_end(text, at)
}

/// The same, where fewer bytes are left than are looked at once. Few units have such an end, so it stands out of line.
#[inline(never)]
fn run_to_end(text: &[u8], at: usize) -> usize
    requires left { (at ≤ length text.now) × (length text.now < at + 16) }
    requires run { IsRun (take at text.now) }
    ensures within { result ≤ length text.now }
    ensures run { IsRun (take result text.now) }
{
    let _ = at;
    if text.len() < LANES {
        return run_in_short(text);
    }
    // Some of the last sixteen were looked at before.
    let last = text.len() - LANES;
    last + run_at(text, last)
}

/// The same of a text that is shorter than what is looked at once.
fn run_in_short(text: &[u8]) -> usize
    ensures within { result ≤ length text.now }
    ensures run { IsRun (take result text.now) }
{
    for at in 0..text.len() {
        if text[at] == b';' {
            return at;
        }
        if text[at] == b'"' {
            return at;
        }
    }
    text.len()
}

/// The same of the sixteen bytes from a place on.
fn run_at(text: &[u8], at: usize) -> usize
    requires { at + 16 ≤ length text.now }
    ensures within { result ≤ 16 }
    ensures run { IsRun (take result (drop at text.now)) }
{
    let bytes = u8x16::from_slice(&text[at..]);
    let stops = bytes.simd_eq(u8x16::splat(b';')) | bytes.simd_eq(u8x16::splat(b'"'));
    first_set(stops.to_bitmask())
}

/// The place of the lowest bit that is set, or sixteen.
pub fn first_set(mask: u64) -> usize
    ensures { result ≡ lowest mask 16 }
{
    if mask == 0 {
        LANES
    } else {
        mask.trailing_zeros() as usize
    }
}
