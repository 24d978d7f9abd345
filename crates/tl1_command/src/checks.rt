ghost use Rattle.std.specs.Prelude.{◌≡◌, ◌≤◌, length, map, drop};
ghost use Rattle.std.specs.List.{list_any};
ghost use Rattle.tl1_text.specs.Spans.{block_at, AreBlocksOf};
ghost use Rattle.tl1_text.specs.Tags.{is_ctag};
ghost use Rattle.tl1_command.specs.Blocks.{tag_text, has_value_from as has_from};
ghost use Rattle.tl1_command.specs.Codes.{is_same_text};
ghost use Rattle.tl1_command.specs.Meanings.{named_in, is_other_target as other_target, is_not_logged_in as not_logged_in, is_not_entitled as not_entitled, is_missing as misses, has_too_many as too_many, has_general as general_there, first_refusal};
ghost use Rattle.tl1_command.specs.Parts.{AreParts};

use crate::form::{Form, form_of};
use crate::parts::{Parts, block_of, block_text, has_value};
use dxc_model::{Cause, CommandCode, SessionUser, entitled};
use tl1_text::{Blocks, Sid};

/// The TID is neither empty nor the SID, case aside.
pub fn is_other_target(sid: &Sid, target: &[u8]) -> bool
    ensures { result ≡ other_target sid.now target.now }
{
    !target.is_empty() && !is_named(sid, target)
}

/// A TID is the SID, case aside. Apart, since most units have none.
#[inline(never)]
fn is_named(sid: &Sid, target: &[u8]) -> bool
    ensures { result ≡ is_same_text target.now sid.now }
{
    target.eq_ignore_ascii_case(sid.bytes())
}

/// Nobody is logged in, and the command isn't ACT-USER.
#[inline(always)]
fn is_not_logged_in(user: &SessionUser, code: CommandCode) -> bool
    ensures { result ≡ not_logged_in user.now code }
{
    match user {
        SessionUser::Nobody => !matches!(code, CommandCode::ActUser),
        SessionUser::User { .. } => false,
    }
}

/// Somebody is logged in whose class isn't in the command's column.
#[inline(always)]
fn is_not_entitled(user: &SessionUser, code: CommandCode) -> bool
    ensures { result ≡ not_entitled user.now code }
{
    match user {
        SessionUser::Nobody => false,
        SessionUser::User { class, .. } => !entitled(*class, code),
    }
}

/// A parameter that isn't optional is empty.
#[inline(always)]
fn is_missing(form: Form, unit: &[u8], blocks: &Blocks, parts: &Parts) -> bool
    requires parts { AreParts unit.now (map (block_at unit.now) blocks.now.block.items) parts.now }
    ensures { result ≡ misses form (named_in (map (block_at unit.now) blocks.now.block.items)) }
{
    let first = parts.aids.first.text(unit).is_empty();
    let second = parts.aids.second.text(unit).is_empty();
    let value = parts.payload.first.text(unit).is_empty();
    (form.aid.is_required() && (first || (form.aids == 2 && second)))
        || (form.value.is_required() && value)
}

/// A parameter of the AID block or of a payload block that the command doesn't name isn't empty.
#[inline(always)]
fn has_too_many(form: Form, unit: &[u8], blocks: &Blocks, parts: &Parts) -> bool
    requires short { length unit.now ≤ 2047 }
    requires blocks { AreBlocksOf unit.now blocks.now.block.items }
    requires parts { AreParts unit.now (map (block_at unit.now) blocks.now.block.items) parts.now }
    requires few { form.aids ≤ 2 }
    ensures { result ≡ too_many form (map (block_at unit.now) blocks.now.block.items) }
{
    parts.aids.has_value_from(unit, form.aids)
        || parts.payload.has_value_from(unit, form.values())
        || has_further(unit, blocks)
}

/// A parameter of a payload block after the first isn't empty.
#[inline(always)]
pub fn has_further(unit: &[u8], blocks: &Blocks) -> bool
    requires short { length unit.now ≤ 2047 }
    requires blocks { AreBlocksOf unit.now blocks.now.block.items }
    ensures { result ≡ list_any (has_from 0)
        (drop 6 (map (block_at unit.now) blocks.now.block.items)) }
{
    for number in 6..blocks.block.len() {
        if has_value(unit, block_of(blocks, number)) {
            return true;
        }
    }
    false
}

/// A parameter of the general block isn't empty.
#[inline(always)]
pub fn has_general(unit: &[u8], blocks: &Blocks) -> bool
    requires short { length unit.now ≤ 2047 }
    requires blocks { AreBlocksOf unit.now blocks.now.block.items }
    ensures { result ≡ general_there (map (block_at unit.now) blocks.now.block.items) }
{
    has_value(unit, block_of(blocks, 4))
}

/// The first cause of those that code, user and the parts of the unit show, before the parameters are read.
#[inline(always)]
pub fn refusal(
    sid: &Sid,
    user: &SessionUser,
    code: CommandCode,
    unit: &[u8],
    blocks: &Blocks,
    parts: &Parts,
    tagged: bool,
) -> Option<Cause>
    requires short { length unit.now ≤ 2047 }
    requires blocks { AreBlocksOf unit.now blocks.now.block.items }
    requires tagged { tagged ≡ is_ctag (tag_text (map (block_at unit.now) blocks.now.block.items)) }
    requires parts { AreParts unit.now (map (block_at unit.now) blocks.now.block.items) parts.now }
    ensures { result ≡ first_refusal sid.now user.now code
        (map (block_at unit.now) blocks.now.block.items) }
{
    let form = form_of(code);
    if !tagged {
        Some(Cause::BadCtag)
    } else if is_other_target(sid, block_text(unit, blocks, 1)) {
        Some(Cause::OtherTarget)
    } else if is_not_logged_in(user, code) {
        Some(Cause::NotLoggedIn)
    } else if is_not_entitled(user, code) {
        Some(Cause::NotEntitled)
    } else if is_missing(form, unit, blocks, parts) {
        Some(Cause::Missing)
    } else if has_too_many(form, unit, blocks, parts) {
        Some(Cause::TooMany)
    } else if has_general(unit, blocks) {
        Some(Cause::GeneralBlock)
    } else {
        None
    }
}
