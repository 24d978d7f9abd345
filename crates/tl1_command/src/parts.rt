ghost use Rattle.std.specs.Prelude.{◌≡◌, ◌≤◌, ℕ, true, List, [], ◌∷◌, IfSome, None, length, map, drop};
ghost use Rattle.std.specs.List.{list_any};
ghost use Rattle.tl1_text.specs.Spans.{IsBlockIn, block_at, AreBlocksOf};
ghost use Rattle.tl1_text.specs.Values.{values_behind};
ghost use Rattle.tl1_text.specs.Walk.{values_of};
ghost use Rattle.tl1_command.specs.Blocks.{block as block_in, is_there};
ghost use Rattle.tl1_command.specs.Parts.{HasValues, IsPair, AreParts};

use crate::code::is_exactly;
use crate::comma::first_of;
use tl1_text::{Blocks, Span, first_param};

/// The parameters that a command may name: two AIDs, and of the first payload block a value and a label.
#[derive(Clone, Copy)]
pub struct Named {
    pub first: Span,
    pub second: Span,
    pub value: Span,
    pub label: Span,
}

/// The text of a block, which is empty where the block isn't there.
pub fn block_text<'a>(unit: &'a [u8], blocks: &Blocks, number: usize) -> &'a [u8]
    requires blocks { AreBlocksOf unit.now blocks.now.block.items }
    ensures { result.now ≡ (block_in number (map (block_at unit.now) blocks.now.block.items)).text }
{
    if number < blocks.block.len() {
        blocks.block[number].text(unit)
    } else {
        b""
    }
}

/// The block of a number, where it is there.
pub fn block_of(blocks: &Blocks, number: usize) -> Option<Span>
    ensures { (unit : List ℕ) → AreBlocksOf unit blocks.now.block.items → HasValues unit
        (block_in number (map (block_at unit) blocks.now.block.items)).values result }
{
    if number < blocks.block.len() {
        Some(blocks.block[number])
    } else {
        None
    }
}

/// Whether a value of a block is there.
#[inline(always)]
#[tactic(auto, unfolding(tl1_text::specs::Walk::values_of))]
pub fn has_value(unit: &[u8], block: Option<Span>) -> bool
    requires short { length unit.now ≤ 2047 }
    requires block { IfSome block (IsBlockIn unit.now) }
    ensures { result ≡ list_any is_there (values_behind unit.now block) }
{
    let Some(span) = block else {
        return false;
    };
    if span.text(unit).is_empty() {
        return false;
    }
    is_there_in(unit, block)
}

/// The same. Apart, since most units have no such block, or an empty one.
#[inline(never)]
fn is_there_in(unit: &[u8], block: Option<Span>) -> bool
    requires short { length unit.now ≤ 2047 }
    requires block { IfSome block (IsBlockIn unit.now) }
    ensures { result ≡ list_any is_there (values_behind unit.now block) }
{
    let mut left = block;
    while let Some(rest) = left {
        let param = first_param(unit, rest);
        if !param.value.text(unit).is_empty() {
            return true;
        }
        left = param.others;
    }
    false
}

/// Whether a block is a CCT in capitals, so that it is its one value.
#[inline(always)]
#[tactic(auto, unfolding(tl1_text::specs::Walk::values_of))]
pub fn is_way(text: &[u8]) -> bool
    ensures { result ≡ true → values_of text.now ≡ text.now ∷ [] }
{
    is_exactly(text, b"2WAY") || is_exactly(text, b"1WAY")
}

/// The first two values of a block, which are empty where they aren't there, and the block of the further ones.
#[derive(Clone, Copy)]
pub struct Pair {
    pub first: Span,
    pub second: Span,
    pub others: Option<Span>,
}

impl Pair {
    /// The first two values of the block of a number.
    #[inline(always)]
    #[tactic(auto, unfolding(tl1_text::specs::Walk::values_of))]
    fn at(unit: &[u8], blocks: &Blocks, number: usize) -> Pair
        requires short { length unit.now ≤ 2047 }
        requires blocks { AreBlocksOf unit.now blocks.now.block.items }
        ensures { IsPair unit.now
            (block_in number (map (block_at unit.now) blocks.now.block.items)).values result }
    {
        let Some(block) = block_of(blocks, number) else {
            return Pair::one(Span::default());
        };
        let text = block.text(unit);
        if text.is_empty() {
            return Pair::one(block);
        }
        if is_way(text) {
            return Pair::one(block);
        }
        Pair::of(unit, block)
    }

    /// The first two values of a block.
    // In line, as `command_with` is: what is known of a unit's blocks then serves at its values, 60 instructions off a retrieval of a port.
    #[inline(always)]
    fn of(unit: &[u8], block: Span) -> Pair
        requires short { length unit.now ≤ 2047 }
        requires block { IsBlockIn unit.now block }
        ensures { IsPair unit.now (values_behind unit.now (Some block)) result }
    {
        let first = first_of(unit, block);
        let Some(rest) = first.others else {
            return Pair::one(first.value);
        };
        let second = first_of(unit, rest);
        Pair {
            first: first.value,
            second: second.value,
            others: second.others,
        }
    }

    /// One value alone.
    pub fn one(first: Span) -> Pair
        ensures { result ≡ record
            { first = first; second = record { start = 0; end = 0 }; others = None } }
    {
        Pair {
            first,
            second: Span::default(),
            others: None,
        }
    }

    /// Whether a value from this parameter on is there.
    #[inline(always)]
    pub fn has_value_from(&self, unit: &[u8], from: usize) -> bool
        requires short { length unit.now ≤ 2047 }
        requires from { from ≤ 2 }
        requires pair { (vs : List (List ℕ)) × IsPair unit.now vs self.now }
        ensures { (vs : List (List ℕ)) → IsPair unit.now vs self.now
            → result ≡ list_any is_there (drop from vs) }
    {
        (from == 0 && !self.first.text(unit).is_empty())
            || (from <= 1 && !self.second.text(unit).is_empty())
            || has_value(unit, self.others)
    }
}

/// The first two AIDs, and the first two values of the first payload block.
#[derive(Clone, Copy)]
pub struct Parts {
    pub aids: Pair,
    pub payload: Pair,
}

impl Parts {
    /// The parameters that a command may name.
    pub fn named(&self) -> Named
        ensures { result ≡ record {
          first = self.now.aids.first;
          second = self.now.aids.second;
          value = self.now.payload.first;
          label = self.now.payload.second;
        } }
    {
        Named {
            first: self.aids.first,
            second: self.aids.second,
            value: self.payload.first,
            label: self.payload.second,
        }
    }
}

#[inline(always)]
pub fn parts_of(unit: &[u8], blocks: &Blocks) -> Parts
    requires short { length unit.now ≤ 2047 }
    requires blocks { AreBlocksOf unit.now blocks.now.block.items }
    ensures { AreParts unit.now (map (block_at unit.now) blocks.now.block.items) result }
{
    Parts {
        aids: Pair::at(unit, blocks, 2),
        payload: Pair::at(unit, blocks, 5),
    }
}
