ghost use Rattle.std.specs.Prelude.{◌≡◌, ◌≤◌, ℕ, List, length, map, MatchResult, Some, Ok, Err, IfOk, IfErr};
ghost use Rattle.std.specs.Option.{is_some};
ghost use Rattle.dxc_num.specs.Dimensions.{Dimensions};
ghost use Rattle.dxc_model.specs.declared.user.SessionUser.{SessionUser as AUser};
ghost use Rattle.tl1_text.specs.Spans.{IsIn, block_at, AreBlocksOf};
ghost use Rattle.tl1_text.specs.Tags.{ctag_of, is_ctag};
ghost use Rattle.tl1_command.specs.Blocks.{code_text, tag_text};
ghost use Rattle.tl1_command.specs.Codes.{code_named};
ghost use Rattle.tl1_command.specs.Commands.{asked_by, named_by, IsAptCommand};
ghost use Rattle.tl1_command.specs.Meanings.{meaning, asked as asked_for};

use crate::asked::{asked, selection_or_all_of, unlabelled, unlabelled_ends};
use crate::checks::refusal;
use crate::code::code_of;
use crate::command::Command;
use crate::parts::{Named, block_text, parts_of};
use dxc_model::{Cause, CommandCode, Op, SessionUser};
use dxc_num::Shape;
use tl1_text::{Blocks, Sid, ctag_in};

/// The command that the unit's code names, case aside; None where it names none. The blocks are the unit's.
pub fn code_in(unit: &[u8], blocks: &Blocks) -> Option<CommandCode>
    requires { AreBlocksOf unit.now blocks.now.block.items }
    ensures { result ≡ code_named (code_text (map (block_at unit.now) blocks.now.block.items)) }
{
    code_of(block_text(unit, blocks, 0))
}

/// The command that a unit asks for, or the first cause that holds, of UnknownCommand, BadCtag, OtherTarget, NotLoggedIn,
/// NotEntitled, Missing, TooMany, GeneralBlock, BadValue, BadAid and SamePort in this order. The blocks are the unit's. A
/// look is never answered.
pub fn command_of(
    shape: Shape,
    sid: &Sid,
    user: SessionUser,
    unit: &[u8],
    blocks: &Blocks,
) -> Result<Command, Cause>
    requires short { length unit.now ≤ 2047 }
    requires blocks { AreBlocksOf unit.now blocks.now.block.items }
    ensures meaning { MatchResult result (λ c. meaning shape sid.now user
        (map (block_at unit.now) blocks.now.block.items) ≡ Ok (asked_by unit.now c))
        (λ q. meaning shape sid.now user (map (block_at unit.now) blocks.now.block.items) ≡ Err q) }
    ensures apt { IfOk result (IsAptCommand shape unit.now) }
{
    let tagged = ctag_in(unit, blocks).is_some();
    command_with(shape, sid, &user, unit, blocks, tagged)
}

/// The same where it is known whether the unit has a tag.
// What is frequent is returned by itself: where cases join, their results are copied part by part.
#[inline(always)]
pub fn command_with(
    shape: Shape,
    sid: &Sid,
    user: &SessionUser,
    unit: &[u8],
    blocks: &Blocks,
    tagged: bool,
) -> Result<Command, Cause>
    requires short { length unit.now ≤ 2047 }
    requires blocks { AreBlocksOf unit.now blocks.now.block.items }
    requires tagged { tagged ≡ is_some (ctag_of unit.now) }
    ensures meaning { MatchResult result (λ c. meaning shape sid.now user.now
        (map (block_at unit.now) blocks.now.block.items) ≡ Ok (asked_by unit.now c)) (λ q. meaning
        shape sid.now user.now (map (block_at unit.now) blocks.now.block.items) ≡ Err q) }
    ensures apt { IfOk result (IsAptCommand shape unit.now) }
{
    let code = known_code(unit, blocks)?;
    match code {
        CommandCode::RtrvHdr => {
            admitted(sid, user, CommandCode::RtrvHdr, unit, blocks, tagged)?;
            return Ok(Command::Header);
        }
        CommandCode::EntCrsT0 => {
            let named = admitted(sid, user, CommandCode::EntCrsT0, unit, blocks, tagged)?;
            if !named.label.text(unit).is_empty() {
                return asked(shape, code, unit, named);
            }
            let (from, to, cct) = unlabelled_ends(shape, unit, named)?;
            return Ok(Command::Table(Op::Enter(unlabelled(from, to, cct))));
        }
        CommandCode::DltCrsT0 => {
            let named = admitted(sid, user, CommandCode::DltCrsT0, unit, blocks, tagged)?;
            if !named.label.text(unit).is_empty() {
                return asked(shape, code, unit, named);
            }
            let (from, to, cct) = unlabelled_ends(shape, unit, named)?;
            return Ok(Command::Table(Op::Delete { from, to, cct }));
        }
        CommandCode::RtrvCrsT0 => {
            let named = admitted(sid, user, CommandCode::RtrvCrsT0, unit, blocks, tagged)?;
            let selection = selection_or_all_of(shape, named.first.text(unit))?;
            return Ok(Command::Table(Op::Rows(selection)));
        }
        _ => other_command(shape, sid, user, code, unit, blocks, tagged),
    }
}

/// The command that the unit's code names, or why the unit is denied where it names none.
#[tactic(auto, unfolding(crate::specs::Meanings::meaning))]
#[inline(always)]
fn known_code(unit: &[u8], blocks: &Blocks) -> Result<CommandCode, Cause>
    requires { AreBlocksOf unit.now blocks.now.block.items }
    ensures code { IfOk result
        (λ c. code_named (code_text (map (block_at unit.now) blocks.now.block.items)) ≡ Some c) }
    ensures refused { (d : Dimensions) (sid : List ℕ) (user : AUser) → IfErr result
        (λ q. meaning d sid user (map (block_at unit.now) blocks.now.block.items) ≡ Err q) }
{
    code_in(unit, blocks).ok_or(Cause::UnknownCommand)
}

/// What a unit asks for by a code.
#[inline(never)]
fn other_command(
    shape: Shape,
    sid: &Sid,
    user: &SessionUser,
    code: CommandCode,
    unit: &[u8],
    blocks: &Blocks,
    tagged: bool,
) -> Result<Command, Cause>
    requires short { length unit.now ≤ 2047 }
    requires blocks { AreBlocksOf unit.now blocks.now.block.items }
    requires tagged { tagged ≡ is_ctag (tag_text (map (block_at unit.now) blocks.now.block.items)) }
    requires code { code_named (code_text (map (block_at unit.now) blocks.now.block.items)) ≡ Some
        code }
    ensures meaning { MatchResult result (λ c. meaning shape sid.now user.now
        (map (block_at unit.now) blocks.now.block.items) ≡ Ok (asked_by unit.now c)) (λ q. meaning
        shape sid.now user.now (map (block_at unit.now) blocks.now.block.items) ≡ Err q) }
    ensures apt { IfOk result (IsAptCommand shape unit.now) }
{
    let named = admitted(sid, user, code, unit, blocks, tagged)?;
    asked(shape, code, unit, named)
}

/// The parameters of a unit with a code, where nothing refuses it before they are read. In line, so that what is asked of
/// them is known where the code is.
#[tactic(auto, unfolding(crate::specs::Meanings::meaning))]
#[inline(always)]
fn admitted(
    sid: &Sid,
    user: &SessionUser,
    code: CommandCode,
    unit: &[u8],
    blocks: &Blocks,
    tagged: bool,
) -> Result<Named, Cause>
    requires short { length unit.now ≤ 2047 }
    requires blocks { AreBlocksOf unit.now blocks.now.block.items }
    requires tagged { tagged ≡ is_ctag (tag_text (map (block_at unit.now) blocks.now.block.items)) }
    requires code { code_named (code_text (map (block_at unit.now) blocks.now.block.items)) ≡ Some
        code }
    ensures meaning { (d : Dimensions) → MatchResult result (λ n. meaning d sid.now user.now
        (map (block_at unit.now) blocks.now.block.items) ≡ asked_for d code (named_by unit.now n))
        (λ q. meaning d sid.now user.now (map (block_at unit.now) blocks.now.block.items) ≡ Err q) }
    ensures first { IfOk result (λ n. IsIn unit.now n.first) }
    ensures second { IfOk result (λ n. IsIn unit.now n.second) }
    ensures value { IfOk result (λ n. IsIn unit.now n.value) }
    ensures label { IfOk result (λ n. IsIn unit.now n.label) }
{
    let parts = parts_of(unit, blocks);
    match refusal(sid, user, code, unit, blocks, &parts, tagged) {
        Some(cause) => Err(cause),
        None => Ok(parts.named()),
    }
}
