// Cuts a unit into the spans of its blocks, in one pass.
ghost use Rattle.std.specs.Prelude.{◌≡◌, ◌≤◌, ◌<◌, ℕ, [], None, true, false, length, slice_index, IfSome, MatchOption};
ghost use Rattle.tl1_text.specs.Grammar.{is_plain as plain};
ghost use Rattle.tl1_text.specs.Walk.{blocks_of};
ghost use Rattle.tl1_text.specs.Spans.{AreBlocksOf};
ghost use Rattle.tl1_text.specs.Cuts.{is_mark as mark, IsCode, Headway, IsCutSoFar};

use crate::letter::{is_inner, is_letter_or_digit, is_plain};
use crate::span::Span;
use arrayvec::ArrayVec;

/// A block has at most so many parameters.
pub const PARAMS: usize = 8;

/// Where the code ends that begins a unit: one to three words of letters and digits joined by `-`, with a colon after
/// them. None only where the unit isn't in the grammar.
#[inline(always)]
pub fn code_end(unit: &[u8]) -> Option<usize>
    ensures { MatchOption result (blocks_of unit.now ≡ None) (IsCode unit.now) }
{
    let mut word = 0;
    let mut left = 3usize;
    for at in 0..unit.len() {
        let b = unit[at];
        if !is_letter_or_digit(b) {
            if word == at {
                return None;
            }
            if b == b':' {
                return Some(at);
            }
            if b != b'-' {
                return None;
            }
            if left == 1 {
                return None;
            }
            left -= 1;
            word = at + 1;
        }
    }
    None
}

/// Cuts what stands after the code. False exactly where the unit isn't in the grammar.
pub fn cut(unit: &[u8], code: usize, found: &mut ArrayVec<Span, 10>) -> bool
    requires short { length unit.now ≤ 2047 }
    requires is_code { IsCode unit.now code }
    requires none { found.old.items ≡ [] }
    ensures blocks { result ≡ true → AreBlocksOf unit.now found.new.items }
    ensures refused { result ≡ false → blocks_of unit.now ≡ None }
{
    found.push(Span::between(0, code));
    let mut at = code + 1;
    let mut start = at;
    let mut params = 1usize;
    while at < unit.len() {
        let b = unit[at];
        if is_plain(b) {
            at += 1;
        } else if b == b':' {
            if found.len() == 9 {
                return false;
            }
            found.push(Span::between(start, at));
            at += 1;
            start = at;
            params = 1;
        } else if b == b',' {
            if params == PARAMS {
                return false;
            }
            params += 1;
            at += 1;
        } else {
            match quotes_end(unit, at) {
                Some(end) => at = end,
                None => return false,
            }
        }
    }
    found.push(Span::between(start, unit.len()));
    found.len() >= 4
}

/// Where the quotes end that begin at a byte after a mark; a mark stands there, or nothing. None only where the unit isn't in
/// the grammar.
pub fn quotes_end(unit: &[u8], at: usize) -> Option<usize>
    requires some { 0 < at }
    requires within { at < length unit.now }
    requires not_plain { plain (slice_index unit.now at) ≡ false }
    requires not_mark { mark (slice_index unit.now at) ≡ false }
    ensures cut { (code : ℕ) → (so_far : Headway) → IsCutSoFar unit.now code at so_far
        → MatchOption result (blocks_of unit.now ≡ None)
        (λ end. IsCutSoFar unit.now code end so_far) }
    ensures forwards { IfSome result (λ end. at < end) }
{
    if !is_mark(unit[at - 1]) {
        return None;
    }
    if unit[at] != b'"' {
        return None;
    }
    for end in at + 1..unit.len() {
        let b = unit[end];
        if b == b'"' {
            return closed_at(unit, end + 1);
        }
        if !is_inner(b) {
            return None;
        }
    }
    None
}

/// A place after quotes, where a mark stands there, or nothing.
fn closed_at(unit: &[u8], at: usize) -> Option<usize>
    ensures { MatchOption result ((at < length unit.now) × (mark (slice_index unit.now at) ≡ false))
        (λ end. (end ≡ at) × (at < length unit.now → mark (slice_index unit.now at) ≡ true)) }
{
    if at < unit.len() && !is_mark(unit[at]) {
        return None;
    }
    Some(at)
}

/// A colon or a comma.
fn is_mark(b: u8) -> bool
    ensures { result ≡ mark b }
{
    b == b':' || b == b','
}
