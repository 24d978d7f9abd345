ghost use Rattle.std.specs.Prelude.{◌≡◌, ◌≤◌};
ghost use Rattle.tl1_command.specs.Codes.{form_of as form_in};
ghost use Rattle.tl1_command.specs.Meanings.{is_required as must_be, params_named as how_many, values_named as all_values};

use dxc_model::CommandCode;

/// Whether a command names a parameter.
#[derive(Clone, Copy, PartialEq, Eq)]
pub enum Need {
    Never,
    Optional,
    Required,
}

impl Need {
    pub fn is_required(self) -> bool
        ensures { result ≡ must_be self }
    {
        matches!(self, Need::Required)
    }

    /// How many parameters it names.
    pub fn named(self) -> usize
        ensures count { result ≡ how_many self }
        ensures few { result ≤ 1 }
    {
        match self {
            Need::Never => 0,
            Need::Optional | Need::Required => 1,
        }
    }
}

/// How many AIDs a command names, whether these have to be there, whether the first parameter of the first payload block
/// has, and whether the second one is a label.
#[derive(Clone, Copy, PartialEq, Eq)]
pub struct Form {
    pub aids: usize,
    pub aid: Need,
    pub value: Need,
    pub label: Need,
}

impl Form {
    /// How many parameters of the first payload block the command names.
    pub fn values(self) -> usize
        ensures count { result ≡ all_values self }
        ensures few { result ≤ 2 }
    {
        self.value.named() + self.label.named()
    }
}

#[inline(always)]
pub fn form_of(code: CommandCode) -> Form
    ensures form { result ≡ form_in code }
    ensures few { result.aids ≤ 2 }
{
    let (aids, aid, value, label) = match code {
        CommandCode::ActUser => (1, Need::Required, Need::Required, Need::Never),
        CommandCode::CancUser
        | CommandCode::AlwMsgAll
        | CommandCode::InhMsgAll
        | CommandCode::RtrvCrsT0 => { (1, Need::Optional, Need::Never, Need::Never) }
        CommandCode::RtrvHdr | CommandCode::RtrvMid | CommandCode::InitSys | CommandCode::RtrvSys =>
            (0, Need::Never, Need::Never, Need::Never),
        CommandCode::EntCrsT0 => (2, Need::Required, Need::Optional, Need::Optional),
        CommandCode::EdCrsT0 => (2, Need::Required, Need::Required, Need::Optional),
        CommandCode::DltCrsT0 => (2, Need::Required, Need::Optional, Need::Never),
        CommandCode::EntEqpt | CommandCode::DltEqpt | CommandCode::RmvMid | CommandCode::RstMid => {
            (1, Need::Required, Need::Never, Need::Never)
        }
    };
    Form {
        aids,
        aid,
        value,
        label,
    }
}
