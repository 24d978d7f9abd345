// The units that most sessions are made of, read without room for what the others may hold.
ghost use Rattle.std.specs.Prelude.{◌≡◌, ◌≤◌, ℕ, List, [], Option, Some, Ok, Err, IfSome, IfOk, MatchResult, length, map};
ghost use Rattle.dxc_num.specs.Dimensions.{Dimensions};
ghost use Rattle.dxc_model.specs.declared.conn.Cct.{Cct as ACct};
ghost use Rattle.dxc_model.specs.declared.op.Op.{Op as AnOp};
ghost use Rattle.dxc_model.specs.Operations.{ArePorts};
ghost use Rattle.tl1_text.specs.Spans.{IsIn, IsBlockIn, block_at, text_at, AreBlocksOf};
ghost use Rattle.tl1_text.specs.Tags.{is_ctag};
ghost use Rattle.tl1_text.specs.Values.{values_behind};
ghost use Rattle.tl1_command.specs.Blocks.{block as block_in, code_text, tag_text};
ghost use Rattle.tl1_command.specs.Codes.{code_named};
ghost use Rattle.tl1_command.specs.Commands.{asked_often, named_by, IsAptOften};
ghost use Rattle.tl1_command.specs.Meanings.{asked as asked_for, asked_of_ends, asks_table, meaning, selection_or_all, Ends};
ghost use Rattle.tl1_command.specs.Parts.{AreParts, IsPair};

use crate::asked::{ends_of, frequent_cct, selection_or_all_of};
use crate::checks::refusal;
use crate::code::frequent;
use crate::comma::{first_of, is_quoted};
use crate::parts::{Named, Pair, Parts, block_of, block_text, is_way};
use dxc_model::{Cause, Cct, CommandCode, Selection, SessionUser};
use dxc_num::{Port, Shape};
use tl1_text::{Blocks, Sid, Span};

/// What the most frequent units ask for.
#[derive(Clone, Copy)]
pub enum Frequent {
    /// RTRV-HDR.
    Header,
    /// RTRV-CRS-T0.
    Rows(Selection),
    /// ENT-CRS-T0 of a connection without a label.
    Enter {
        from: Port,
        to: Port,
        cct: Option<Cct>,
    },
    /// DLT-CRS-T0.
    Delete {
        from: Port,
        to: Port,
        cct: Option<Cct>,
    },
}

/// What a unit asks for whose code is frequent and in capitals, or the cause that refuses it; no cause where neither is known,
/// as with quotes, a TID, a general block or a label. The blocks are the unit's.
#[inline(always)]
#[tactic(auto, unfolding(crate::specs::Meanings::meaning))]
pub fn frequent_of(
    shape: Shape,
    sid: &Sid,
    user: &SessionUser,
    unit: &[u8],
    blocks: &Blocks,
    tagged: bool,
) -> Result<Frequent, Option<Cause>>
    requires short { length unit.now ≤ 2047 }
    requires blocks { AreBlocksOf unit.now blocks.now.block.items }
    requires tagged { tagged ≡ is_ctag (tag_text (map (block_at unit.now) blocks.now.block.items)) }
    ensures meaning { MatchResult result (λ f. meaning shape sid.now user.now
        (map (block_at unit.now) blocks.now.block.items) ≡ Ok (asked_often f))
        (λ w. IfSome w (λ q. meaning shape sid.now user.now
        (map (block_at unit.now) blocks.now.block.items) ≡ Err q)) }
    ensures apt { IfOk result (IsAptOften shape) }
{
    match frequent(block_text(unit, blocks, 0)).ok_or(None)? {
        CommandCode::RtrvHdr => {
            bare_named(sid, user, CommandCode::RtrvHdr, unit, blocks, tagged)?;
            Ok(Frequent::Header)
        }
        CommandCode::RtrvCrsT0 => {
            let named = bare_named(sid, user, CommandCode::RtrvCrsT0, unit, blocks, tagged)?;
            let selection = bare_selection(shape, named.first.text(unit))?;
            Ok(Frequent::Rows(selection))
        }
        CommandCode::EntCrsT0 => {
            let named = bare_named(sid, user, CommandCode::EntCrsT0, unit, blocks, tagged)?;
            let (from, to, cct) = bare_ends(shape, unit, named)?;
            Ok(Frequent::Enter { from, to, cct })
        }
        CommandCode::DltCrsT0 => {
            let named = bare_named(sid, user, CommandCode::DltCrsT0, unit, blocks, tagged)?;
            let (from, to, cct) = bare_ends(shape, unit, named)?;
            Ok(Frequent::Delete { from, to, cct })
        }
        _ => Err(None),
    }
}

/// The parameters of a unit with a code, none of them in quotes, or the cause that refuses it before they are read; no cause
/// where it has quotes, a TID, a general block or further ones. In line, so that what is asked of them is known where the code
/// is, and what is asked of the blocks first isn't asked again.
#[inline(always)]
#[tactic(auto, unfolding(crate::specs::Meanings::meaning))]
fn bare_named(
    sid: &Sid,
    user: &SessionUser,
    code: CommandCode,
    unit: &[u8],
    blocks: &Blocks,
    tagged: bool,
) -> Result<Named, Option<Cause>>
    requires short { length unit.now ≤ 2047 }
    requires blocks { AreBlocksOf unit.now blocks.now.block.items }
    requires tagged { tagged ≡ is_ctag (tag_text (map (block_at unit.now) blocks.now.block.items)) }
    requires code { code_named (code_text (map (block_at unit.now) blocks.now.block.items)) ≡ Some
        code }
    ensures meaning { (d : Dimensions) → MatchResult result (λ n. meaning d sid.now user.now
        (map (block_at unit.now) blocks.now.block.items) ≡ asked_for d code (named_by unit.now n))
        (λ w. IfSome w (λ q. meaning d sid.now user.now
        (map (block_at unit.now) blocks.now.block.items) ≡ Err q)) }
    ensures first { IfOk result (λ n. IsIn unit.now n.first) }
    ensures second { IfOk result (λ n. IsIn unit.now n.second) }
    ensures value { IfOk result (λ n. IsIn unit.now n.value) }
    ensures label { IfOk result (λ n. IsIn unit.now n.label) }
{
    let parts = bare_parts(unit, blocks).ok_or(None)?;
    if blocks.block.len() > 6 {
        return Err(None);
    }
    if !block_text(unit, blocks, 1).is_empty() {
        return Err(None);
    }
    if !block_text(unit, blocks, 4).is_empty() {
        return Err(None);
    }
    match refusal(sid, user, code, unit, blocks, &parts, tagged) {
        Some(cause) => Err(Some(cause)),
        None => Ok(parts.named()),
    }
}

/// The selection that a text names, all where it is empty.
#[inline(always)]
fn bare_selection(shape: Shape, text: &[u8]) -> Result<Selection, Option<Cause>>
    ensures { MatchResult result (λ s. selection_or_all shape text.now ≡ Ok s)
        (λ w. IfSome w (λ q. selection_or_all shape text.now ≡ Err q)) }
{
    match selection_or_all_of(shape, text) {
        Ok(selection) => Ok(selection),
        Err(cause) => Err(Some(cause)),
    }
}

/// The ports and the CCT, where there is no label.
#[inline(always)]
fn bare_ends(
    shape: Shape,
    unit: &[u8],
    named: Named,
) -> Result<(Port, Port, Option<Cct>), Option<Cause>>
    requires first { IsIn unit.now named.first }
    requires second { IsIn unit.now named.second }
    requires value { IsIn unit.now named.value }
    requires label { IsIn unit.now named.label }
    ensures asked { (makes : Ends → Option ACct → List ℕ → AnOp) → MatchResult result
        (λ r. asked_of_ends shape (named_by unit.now named) makes ≡ Ok
        (asks_table (makes (record { from = r.0; to = r.1 }) r.2 [])))
        (λ w. IfSome w (λ q. asked_of_ends shape (named_by unit.now named) makes ≡ Err q)) }
    ensures ports { IfOk result (λ r. ArePorts shape r.0 r.1) }
{
    if !named.label.text(unit).is_empty() {
        return Err(None);
    }
    let cct = frequent_cct(named.value.text(unit)).ok_or(None)?;
    match ends_of(shape, named.first.text(unit), named.second.text(unit)) {
        Ok((from, to)) => Ok((from, to, cct)),
        Err(cause) => Err(Some(cause)),
    }
}

/// The parameters that a command may name, where there are no more of them, and none in quotes.
#[inline(always)]
fn bare_parts(unit: &[u8], blocks: &Blocks) -> Option<Parts>
    requires short { length unit.now ≤ 2047 }
    requires blocks { AreBlocksOf unit.now blocks.now.block.items }
    ensures { IfSome result
        (AreParts unit.now (map (block_at unit.now) blocks.now.block.items)) }
{
    match (bare_aids(unit, blocks), bare_payload(unit, blocks)) {
        (Some(aids), Some(payload)) => Some(Parts { aids, payload }),
        _ => None,
    }
}

/// The AIDs of a unit that has at most two, none of them in quotes.
#[inline(always)]
fn bare_aids(unit: &[u8], blocks: &Blocks) -> Option<Pair>
    requires short { length unit.now ≤ 2047 }
    requires blocks { AreBlocksOf unit.now blocks.now.block.items }
    ensures { IfSome result (IsPair unit.now
        (block_in 2 (map (block_at unit.now) blocks.now.block.items)).values) }
{
    let Some(block) = block_of(blocks, 2) else {
        return None;
    };
    bare_pair(unit, block)
}

/// The values of the first payload block, where it isn't there or is a CCT in capitals.
#[inline(always)]
#[tactic(auto, unfolding(tl1_text::specs::Walk::values_of))]
fn bare_payload(unit: &[u8], blocks: &Blocks) -> Option<Pair>
    requires short { length unit.now ≤ 2047 }
    requires blocks { AreBlocksOf unit.now blocks.now.block.items }
    ensures { IfSome result (IsPair unit.now
        (block_in 5 (map (block_at unit.now) blocks.now.block.items)).values) }
{
    let Some(block) = block_of(blocks, 5) else {
        return Some(Pair::one(Span::default()));
    };
    if is_way(block.text(unit)) {
        return Some(Pair::one(block));
    }
    None
}

/// The values of a block of at most two, none of them in quotes.
#[inline(always)]
#[tactic(auto, unfolding(tl1_text::specs::Walk::values_of))]
fn bare_pair(unit: &[u8], block: Span) -> Option<Pair>
    requires short { length unit.now ≤ 2047 }
    requires block { IsBlockIn unit.now block }
    ensures { IfSome result (IsPair unit.now (values_behind unit.now (Some block))) }
{
    if block.text(unit).is_empty() {
        return Some(Pair::one(block));
    }
    if is_quoted(block.text(unit)) {
        return None;
    }
    let first = first_of(unit, block);
    let Some(rest) = first.others else {
        return Some(Pair::one(first.value));
    };
    if is_quoted(rest.text(unit)) {
        return None;
    }
    let second = first_of(unit, rest);
    if second.others.is_some() {
        return None;
    }
    Some(Pair {
        first: first.value,
        second: second.value,
        others: None,
    })
}
