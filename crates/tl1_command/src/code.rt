ghost use Rattle.std.specs.Prelude.{◌≡◌, ◌++◌, true, Some, IfSome};
ghost use Rattle.tl1_command.specs.Codes.{code_named, is_same_text};

use dxc_model::CommandCode;

/// Whether two texts are the same but for ASCII case. Most are the same as they stand.
pub fn is_same(text: &[u8], name: &str) -> bool
    ensures { result ≡ is_same_text text.now name.now }
{
    text == name.as_bytes() || text.eq_ignore_ascii_case(name.as_bytes())
}

/// The command of a code, case aside; None where it is no command's.
#[inline(always)]
pub fn code_of(text: &[u8]) -> Option<CommandCode>
    ensures { result ≡ code_named text.now }
{
    match frequent(text) {
        Some(code) => Some(code),
        None => any_code_of(text),
    }
}

/// The command of a code that is frequent and written in capitals.
#[inline(always)]
#[tactic(auto, unfolding(crate::specs::Codes::code_named))]
pub fn frequent(text: &[u8]) -> Option<CommandCode>
    ensures { IfSome result (λ c. code_named text.now ≡ Some c) }
{
    if is_exactly(text, b"RTRV-HDR") {
        Some(CommandCode::RtrvHdr)
    } else if is_both(text, b"ENT-CRS-", b"T0") {
        Some(CommandCode::EntCrsT0)
    } else if is_both(text, b"DLT-CRS-", b"T0") {
        Some(CommandCode::DltCrsT0)
    } else if is_both(text, b"RTRV-CRS", b"-T0") {
        Some(CommandCode::RtrvCrsT0)
    } else {
        None
    }
}

/// Whether a text is a name whose length its type tells, so that it takes a few compares and no call.
#[inline(always)]
pub(crate) fn is_exactly<const N: usize>(text: &[u8], name: &[u8; N]) -> bool
    ensures { result ≡ true → text.now ≡ name.now }
{
    match text.as_array::<N>() {
        Some(text) => text == name,
        None => false,
    }
}

/// Whether a text is a name of more than eight bytes, of which the first eight are one compare.
#[inline(always)]
fn is_both<const N: usize>(text: &[u8], front: &[u8; 8], back: &[u8; N]) -> bool
    ensures { result ≡ true → text.now ≡ front.now ++ back.now }
{
    match text.split_first_chunk::<8>() {
        Some((first, rest)) => first == front && is_exactly(rest, back),
        None => false,
    }
}

/// The command of any code.
#[inline(never)]
#[tactic(auto, unfolding(crate::specs::Codes::code_named))]
fn any_code_of(text: &[u8]) -> Option<CommandCode>
    ensures { result ≡ code_named text.now }
{
    if is_same(text, "ACT-USER") {
        Some(CommandCode::ActUser)
    } else if is_same(text, "CANC-USER") {
        Some(CommandCode::CancUser)
    } else if is_same(text, "RTRV-HDR") {
        Some(CommandCode::RtrvHdr)
    } else if is_same(text, "ALW-MSG-ALL") {
        Some(CommandCode::AlwMsgAll)
    } else if is_same(text, "INH-MSG-ALL") {
        Some(CommandCode::InhMsgAll)
    } else if is_same(text, "RTRV-CRS-T0") {
        Some(CommandCode::RtrvCrsT0)
    } else if is_same(text, "ENT-CRS-T0") {
        Some(CommandCode::EntCrsT0)
    } else if is_same(text, "ED-CRS-T0") {
        Some(CommandCode::EdCrsT0)
    } else if is_same(text, "DLT-CRS-T0") {
        Some(CommandCode::DltCrsT0)
    } else if is_same(text, "ENT-EQPT") {
        Some(CommandCode::EntEqpt)
    } else if is_same(text, "DLT-EQPT") {
        Some(CommandCode::DltEqpt)
    } else if is_same(text, "RMV-MID") {
        Some(CommandCode::RmvMid)
    } else if is_same(text, "RST-MID") {
        Some(CommandCode::RstMid)
    } else if is_same(text, "RTRV-MID") {
        Some(CommandCode::RtrvMid)
    } else if is_same(text, "INIT-SYS") {
        Some(CommandCode::InitSys)
    } else if is_same(text, "RTRV-SYS") {
        Some(CommandCode::RtrvSys)
    } else {
        None
    }
}
