ghost use Rattle.std.specs.Prelude.{◌≡◌, ◌≢◌, ◌≤◌, IfOk, Err, length};
ghost use Rattle.clap.specs.Words.{app_of};
ghost use Rattle.dxc_args.specs.Matching.{line_app, BeginsPlain, HasLine};

use crate::WordsFault;
use clap::error::ErrorKind;
use clap::{Arg, ArgMatches, Command};
use dxc_outside::Name;
use std::alloc::{AllocError, Global};

/// The one command: a mode, and the words after it.
fn line_command<'a>(alloc: Global) -> Result<Command<'a>, AllocError>
    ensures { IfOk result (λ c. app_of c ≡ line_app) }
{
    let mode = Arg::new(alloc, "mode")
        .required(true)
        .trailing_var_arg(true);
    let rest = Arg::new(alloc, "rest").num_args(0..);
    Command::new(alloc, "dxc")
        .no_binary_name(true)
        .disable_help_flag(true)
        .disable_version_flag(true)
        .arg(mode)?
        .arg(rest)
}

/// Reads a mode and the words after it. It is refused for want of memory alone.
pub(crate) fn name_matches<'a>(
    alloc: Global,
    words: &'a [Name],
) -> Result<ArgMatches<'a>, WordsFault>
    requires plain { BeginsPlain words.now }
    requires few { length words.now ≤ 8 }
    ensures read { IfOk result (HasLine words.now) }
    ensures only_memory { result ≢ Err WordsFault.BadWords }
{
    let Ok(command) = line_command(alloc) else {
        return Err(WordsFault::NoMemory);
    };
    match command.try_get_matches_from(words) {
        Ok(matches) => Ok(matches),
        Err(error) => Err(fault_of(error.kind())),
    }
}

fn fault_of(kind: ErrorKind) -> WordsFault
    ensures { result ≡ WordsFault.BadWords → kind ≢ ErrorKind.OutOfMemory }
{
    match kind {
        ErrorKind::OutOfMemory => WordsFault::NoMemory,
        _ => WordsFault::BadWords,
    }
}
