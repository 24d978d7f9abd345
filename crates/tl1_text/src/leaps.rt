// Cuts a unit of 16 to 64 bytes into the spans of its blocks, run by run.
ghost use Rattle.std.specs.Prelude.{◌≡◌, ◌≤◌, [], None, true, false, length, slice_range, MatchOption};
ghost use Rattle.tl1_text.specs.Walk.{blocks_of};
ghost use Rattle.tl1_text.specs.Spans.{AreBlocksOf};
ghost use Rattle.tl1_text.specs.Stops.{is_stop, is_break, mask_of};
ghost use Rattle.tl1_text.specs.Cuts.{IsCode};

use crate::cutting::{PARAMS, code_end, quotes_end};
use crate::span::Span;
use arrayvec::ArrayVec;

/// Where the code ends that begins the unit. None only where the unit isn't in the grammar.
pub fn code_by_breaks(unit: &[u8], breaks: u64) -> Option<usize>
    requires least { 16 ≤ length unit.now }
    requires breaks { breaks ≡ mask_of is_break (slice_range unit.now 0 16) }
    ensures { MatchOption result (blocks_of unit.now ≡ None) (IsCode unit.now) }
{
    let mut rest = breaks;
    let mut at = 0;
    let mut left = 3usize;
    while rest != 0 {
        let run = rest.trailing_zeros() as usize;
        if run == 0 {
            return None;
        }
        at += run;
        let b = unit[at];
        if b == b':' {
            return Some(at);
        }
        if b != b'-' {
            return None;
        }
        if left == 1 {
            return None;
        }
        left -= 1;
        at += 1;
        rest = rest >> run >> 1;
    }
    code_end(unit)
}

/// Cuts what stands after the code. False exactly where the unit isn't in the grammar.
pub fn cut_runs(unit: &[u8], code: usize, stops: u64, found: &mut ArrayVec<Span, 10>) -> bool
    requires short { length unit.now ≤ 64 }
    requires is_code { IsCode unit.now code }
    requires stops { stops ≡ mask_of is_stop unit.now }
    requires none { found.old.items ≡ [] }
    ensures blocks { result ≡ true → AreBlocksOf unit.now found.new.items }
    ensures refused { result ≡ false → blocks_of unit.now ≡ None }
{
    found.push(Span::between(0, code));
    let mut at = code + 1;
    let mut rest = stops >> code >> 1;
    let mut start = at;
    let mut params = 1usize;
    while rest != 0 {
        let run = rest.trailing_zeros() as usize;
        at += run;
        rest >>= run;
        let b = unit[at];
        if b == b':' {
            if found.len() == 9 {
                return false;
            }
            found.push(Span::between(start, at));
            at += 1;
            rest >>= 1;
            start = at;
            params = 1;
        } else if b == b',' {
            if params == PARAMS {
                return false;
            }
            params += 1;
            at += 1;
            rest >>= 1;
        } else {
            match quotes_end(unit, at) {
                Some(end) => {
                    rest >>= end - at;
                    at = end;
                }
                None => return false,
            }
        }
    }
    found.push(Span::between(start, unit.len()));
    found.len() >= 4
}
