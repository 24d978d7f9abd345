// Which bytes of a unit end a run, sixteen at once.
ghost use Rattle.std.specs.Prelude.{◌≡◌, ◌≤◌, ◌<◌, ◌+◌, length, slice_range};
ghost use Rattle.tl1_text.specs.Stops.{is_stop, is_break, mask_of};

use std::simd::prelude::*;

/// So many bytes are seen at once.
pub const LANES: usize = 16;

/// So many bytes have a bit each in a mask.
pub const BITS: usize = 64;

/// The bytes of a unit that aren't plain: a bit for each, the first one's the lowest.
pub fn stops(unit: &[u8]) -> u64
    requires least { 16 ≤ length unit.now }
    requires most { length unit.now ≤ 64 }
    ensures { result ≡ mask_of is_stop unit.now }
{
    let mut mask = 0;
    let mut at = 0;
    while at + LANES < unit.len() {
        mask |= stops_at(unit, at) << at;
        at += LANES;
    }
    mask | stops_behind(unit, at) << at
}

/// The same of its last bytes.
fn stops_behind(unit: &[u8], at: usize) -> u64
    requires least { 16 ≤ length unit.now }
    requires some { at < length unit.now }
    requires few { length unit.now ≤ at + 16 }
    ensures { result ≡ mask_of is_stop (slice_range unit.now at (length unit.now)) }
{
    let from = unit.len() - LANES;
    stops_at(unit, from) >> (at - from)
}

/// The same of the sixteen bytes from a place on.
fn stops_at(unit: &[u8], at: usize) -> u64
    requires { at + 16 ≤ length unit.now }
    ensures { result ≡ mask_of is_stop (slice_range unit.now at (at + 16)) }
{
    let bytes = u8x16::from_slice(&unit[at..]);
    let outside = (bytes - u8x16::splat(b'!')).simd_ge(u8x16::splat(0x5e));
    let quote = bytes.simd_eq(u8x16::splat(b'"'));
    let comma = bytes.simd_eq(u8x16::splat(b','));
    let colon = (bytes | u8x16::splat(1)).simd_eq(u8x16::splat(b';'));
    (outside | quote | comma | colon).to_bitmask()
}

/// Those of the first sixteen bytes that are neither letters nor digits.
pub fn breaks(unit: &[u8]) -> u64
    requires { 16 ≤ length unit.now }
    ensures { result ≡ mask_of is_break (slice_range unit.now 0 16) }
{
    let bytes = u8x16::from_slice(&unit[0..]);
    let no_letter = ((bytes | u8x16::splat(0x20)) - u8x16::splat(b'a')).simd_ge(u8x16::splat(26));
    let no_digit = (bytes - u8x16::splat(b'0')).simd_ge(u8x16::splat(10));
    (no_letter & no_digit).to_bitmask()
}
