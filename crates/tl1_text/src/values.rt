// Finds the parameters of a block, one at a time.
ghost use Rattle.std.specs.Prelude.{◌≡◌, ◌≤◌, ◌<◌, ◌==◌, true, false, IfSome, length, map, position};
ghost use Rattle.std.specs.List.{All};
ghost use Rattle.tl1_text.specs.Spans.{IsIn, IsBlockIn, text_at};
ghost use Rattle.tl1_text.specs.Walk.{values_of};
ghost use Rattle.tl1_text.specs.Values.{IsFirst, begins_quoted};

use crate::span::Span;
use arrayvec::ArrayVec;

/// A parameter: its value, which stands inside its quotes where it has them, and the block of the further ones, where
/// there are any.
#[derive(Clone, Copy)]
pub struct Param {
    pub value: Span,
    pub others: Option<Span>,
}

/// The first parameter of a block, which is one of the unit's `blocks`, or the `others` of a parameter.
pub fn first_param(unit: &[u8], block: Span) -> Param
    requires short { length unit.now ≤ 2047 }
    requires block { IsBlockIn unit.now block }
    ensures { IsFirst unit.now block result }
{
    if is_quoted(block.text(unit)) {
        quoted_param(unit, block)
    } else {
        plain_param(unit, block)
    }
}

/// The values of a block's parameters, at most eight, each inside its quotes. The block is one of the unit's `blocks`.
pub fn params(unit: &[u8], block: Span) -> ArrayVec<Span, 8>
    requires short { length unit.now ≤ 2047 }
    requires block { IsBlockIn unit.now block }
    ensures texts { map (text_at unit.now) result.items ≡ values_of (text_at unit.now block) }
    ensures within { All (IsIn unit.now) result.items }
{
    let mut values = ArrayVec::new();
    let mut left = Some(block);
    while let Some(block) = left {
        let param = first_param(unit, block);
        values.push(param.value);
        left = param.others;
    }
    values
}

fn is_quoted(text: &[u8]) -> bool
    ensures { result ≡ begins_quoted text.now }
{
    match text {
        [] => false,
        [first, ..] => *first == b'"',
    }
}

/// What stands in front of the first comma.
fn plain_param(unit: &[u8], block: Span) -> Param
    requires short { length unit.now ≤ 2047 }
    requires block { IsBlockIn unit.now block }
    requires plain { begins_quoted (text_at unit.now block) ≡ false }
    ensures { IsFirst unit.now block result }
{
    let Some(count) = comma(block.text(unit)) else {
        return Param {
            value: block,
            others: None,
        };
    };
    let end = block.start as usize + count;
    Param {
        value: Span::between(block.start as usize, end),
        others: Some(Span::between(end + 1, block.end as usize)),
    }
}

/// What stands inside the quotes.
fn quoted_param(unit: &[u8], block: Span) -> Param
    requires short { length unit.now ≤ 2047 }
    requires block { IsBlockIn unit.now block }
    requires quoted { begins_quoted (text_at unit.now block) ≡ true }
    ensures { IsFirst unit.now block result }
{
    let start = block.start as usize + 1;
    let end = start + quote(&block.text(unit)[1..]).unwrap();
    let value = Span::between(start, end);
    if end + 1 == block.end as usize {
        return Param {
            value,
            others: None,
        };
    }
    Param {
        value,
        others: Some(Span::between(end + 2, block.end as usize)),
    }
}

/// The place of the first comma.
fn comma(text: &[u8]) -> Option<usize>
    ensures place { result ≡ position (λ b. b == 44) text.now }
    ensures within { IfSome result (λ at. at < length text.now) }
{
    text.iter().position(|&b| b == b',')
}

/// The place of the first quote.
fn quote(text: &[u8]) -> Option<usize>
    ensures place { result ≡ position (λ b. b == 34) text.now }
    ensures within { IfSome result (λ at. at < length text.now) }
{
    text.iter().position(|&b| b == b'"')
}
