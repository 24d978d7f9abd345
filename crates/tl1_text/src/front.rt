// Looks for the first colon or quote of a text, sixteen bytes at once.
ghost use Rattle.std.specs.Prelude.{◌≡◌, ◌≤◌, length, take};
ghost use Rattle.tl1_text.specs.Tags.{IsUnparted};

use crate::look::first_set;
use crate::stops::LANES;
use std::simd::prelude::*;

/// How many bytes in a text's front are known to be neither colons nor quotes: at most sixteen, and none of a shorter text.
pub fn front_of(text: &[u8]) -> usize
    ensures within { result ≤ length text.now }
    ensures unparted { IsUnparted (take result text.now) }
{
    if text.len() < LANES {
        return 0;
    }
    front_at(text)
}

/// The same of a text of sixteen bytes or more.
fn front_at(text: &[u8]) -> usize
    requires { 16 ≤ length text.now }
    ensures within { result ≤ 16 }
    ensures unparted { IsUnparted (take result text.now) }
{
    let bytes = u8x16::from_slice(&text[0..]);
    let colon = (bytes | u8x16::splat(1)).simd_eq(u8x16::splat(b';'));
    let quote = bytes.simd_eq(u8x16::splat(b'"'));
    first_set((colon | quote).to_bitmask())
}
