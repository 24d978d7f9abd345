//! The blocks of a unit.
ghost use Rattle.std.specs.Prelude.{◌≡◌, ◌≤◌, [], None, true, false, length, MatchResult};
ghost use Rattle.tl1_text.specs.Walk.{blocks_of};
ghost use Rattle.tl1_text.specs.Spans.{AreBlocksOf};

use crate::cutting::{code_end, cut};
use crate::leaps::{code_by_breaks, cut_runs};
use crate::span::{BadText, Blocks, Span};
use crate::stops::{BITS, LANES, breaks, stops};
use arrayvec::ArrayVec;

/// The blocks of a unit's text; BadText exactly where the text isn't in the grammar.
///
/// The text is four to ten blocks, parted by `:` outside quotes. A block is one to eight parameters, parted
/// by `,` outside quotes. A parameter is bytes 0x21 to 0x7E without `"`, `,`, `:` and `;`, also none, or
/// stands in quotes and is bytes 0x20 to 0x7E without `"`. The first block is one to three words of letters
/// and digits, joined by `-`.
pub fn blocks(unit: &[u8]) -> Result<Blocks, BadText>
    requires { length unit.now ≤ 2047 }
    ensures { MatchResult result (λ b. AreBlocksOf unit.now b.block.items)
        (λ _. blocks_of unit.now ≡ None) }
{
    let mut block = ArrayVec::new();
    if !cut_blocks(unit, &mut block) {
        return Err(BadText);
    }
    Ok(Blocks { block })
}

/// Cuts the unit. False exactly where it isn't in the grammar. In line, so that the blocks are copied once, where they are handed up.
#[inline(always)]
fn cut_blocks(unit: &[u8], found: &mut ArrayVec<Span, 10>) -> bool
    requires short { length unit.now ≤ 2047 }
    requires none { found.old.items ≡ [] }
    ensures blocks { result ≡ true → AreBlocksOf unit.now found.new.items }
    ensures refused { result ≡ false → blocks_of unit.now ≡ None }
{
    if (LANES..=BITS).contains(&unit.len()) {
        return cut_by_runs(unit, found);
    }
    let Some(code) = code_end(unit) else {
        return false;
    };
    cut(unit, code, found)
}

/// The same of a unit whose bytes have a mask.
#[inline(always)]
fn cut_by_runs(unit: &[u8], found: &mut ArrayVec<Span, 10>) -> bool
    requires least { 16 ≤ length unit.now }
    requires most { length unit.now ≤ 64 }
    requires none { found.old.items ≡ [] }
    ensures blocks { result ≡ true → AreBlocksOf unit.now found.new.items }
    ensures refused { result ≡ false → blocks_of unit.now ≡ None }
{
    let Some(code) = code_by_breaks(unit, breaks(unit)) else {
        return false;
    };
    cut_runs(unit, code, stops(unit), found)
}
