ghost use Rattle.std.specs.Prelude.{◌≡◌, ◌⊎◌, IfSome, IsErr, IsOk, MatchResult, Some, is_some};
ghost use Rattle.dxc_console.specs.Telling.{IsTold, told_for, version_texts};
ghost use Rattle.dxc_console.specs.Words.{asks_for_help};

use crate::sources::SOURCES;
use crate::telling::Telling;
use dxc_args::Status;
use dxc_outside::Name;
use std::io;

const HELP: &str = "dxc: the controller of a digital cross-connect

  dxc script SHELF JOURNAL    one session: TL1 on standard input, answers on standard output
  dxc script MODULES SLOTS    the same, to try it: on a new element in memory, whose user is logged in
  dxc check SHELF JOURNAL     the connections that the journal comes to, and how many records it has
  dxc export SHELF JOURNAL    the commands that make what the journal comes to on a new element, also of a larger shelf
  dxc serve SHELF JOURNAL ADDRESS LINES WORKERS
                              sessions over TCP, 16 at a time, and 1 to 8 workers that carry frames
  dxc serve SHELF JOURNAL ADDRESS LINES WORKERS PEER
                              the same, with copies of both journals at the standby that PEER is the address of
  dxc standby JOURNAL ADDRESS a copy: waits at the address for a serve that has it as PEER, and ends as that ends
  dxc load NUMBER             10,000 commands drawn from the number, on a journal in memory, and what they came to
  dxc --help                  this text
  dxc --version               the version, and SHA-256 of the sources that it was proved from

MODULES is a number from 2 to 64, and SLOTS one from 1 to 96, without a leading zero: the ports are DS0-1-1 to DS0-MODULES-SLOTS.
All is forgotten at the end. Files of such names are named with ./ in front of them.

JOURNAL is the name of the journal, which is made where there is none. Every change is in it before it is answered, and a
start takes it up again; changes of users are in JOURNAL.users beside it. One program at a time has them. That of a standby is
to be new: no file, or an empty one. The copy of JOURNAL.users is made by a standby of its own, at the port behind the other's.

ADDRESS is where TCP callers come in, such as 127.0.0.1:3083 or [::1]:3083. Each gets a session of its own, in plain bytes.
LINES names files: worker W reads the frames of LINES.in, a byte for each port, and writes those of LINES.W.out, from 0 on.
PEER is an address too. A change is answered once the standby there has it; where the standby is lost, serve goes on alone.

  printf 'ENT-CRS-T0::DS0-1-1,DS0-2-1:1;' | dxc script 2 1
  printf 'ACT-USER::ANNA:1::bc;ENT-CRS-T0::DS0-1-1,DS0-2-1:2;' | dxc script office.toml office.journal
  dxc check office.toml office.journal
  dxc export office.toml office.journal >office.tl1
  dxc serve office.toml office.journal 127.0.0.1:3083 office 2
  dxc standby copy.journal 127.0.0.1:3084
  dxc standby copy.journal.users 127.0.0.1:3085
  dxc serve office.toml office.journal 127.0.0.1:3083 office 2 127.0.0.1:3084
  dxc load 0

NUMBER is from 0 to 18446744073709551615. Equal numbers give equal lines: how many commands were completed and denied, how many
connections there are at the end and how many switches were made, and how many bytes 10,000 frames carried, one behind each command.

SHELF is the name of a shelf file, which tells the element's name, its shape and its users, such as office.toml:

  sid = \"DXC1\"         # a letter, then at most 19 letters, digits and dashes
  modules = 2          # 2 to 64
  slots = 1            # 1 to 96 ports of each module
  equipped = [1, 2]    # may be left out: all modules

  [[user]]             # 1 to 64 of them
  uid = \"ANNA\"         # a letter, then at most 9 letters and digits
  class = \"S\"          # R retrieves, P provisions too, S does all
  salt = \"61\"          # at most 32 bytes, in hexadecimal
  # SHA-256 of the salt's bytes and the PID, in hexadecimal; here the PID is bc
  digest = \"ba7816bf8f01cfea414140de5dae2223b00361a396177a9cb410ff61f20015ad\"

Status: 0 done, 2 words not understood, 3 shelf file refused, 4 journal refused, 5 journal disk failed, 6 cannot open,
7 cannot start a thread, 8 no memory, 9 terminal failed, 10 stopped, 11 read limit reached, 12 standby stream refused,
13 standby journal not empty. On a terminal a second line on standard error tells more.
";

// CHANGELOG.md tells what each version changed.
pub const VERSION: &str = "1.8.0";

/// Tells what the one word `--help` or `--version` asks for, and gives the status that the program then ends with: Done where all of it
/// was told, Link where a part couldn't be. None: the words ask for neither, and nothing is told.
pub fn help_asked<T: Telling>(to: &mut T, words: &[Name]) -> Option<Status>
    ensures asked { is_some result ≡ asks_for_help words.now }
    ensures status { IfSome result (λ s. (s ≡ Status.Done) ⊎ (s ≡ Status.Link)) }
    ensures told { IsTold (T.told to.old to.new) (told_for words.now) (result ≡ Some Status.Done) }
    ensures failed { result ≡ Some Status.Link → T.failed to.old to.new }
{
    let [word] = words else {
        return None;
    };
    match word.text() {
        "--help" => Some(status_of(to.tell(HELP))),
        "--version" => Some(status_of(tell_version(to))),
        _ => None,
    }
}

// Tells the version, and the sum of its sources.
fn tell_version<T: Telling>(to: &mut T) -> io::Result<()>
    ensures told { IsTold (T.told to.old to.new) version_texts (IsOk result) }
    ensures failed { IsErr result → T.failed to.old to.new }
{
    to.tell("dxc ")?;
    to.tell(VERSION)?;
    to.tell("\nsources ")?;
    to.tell(SOURCES)?;
    to.tell("\n")
}

// How the program ends after what it told.
fn status_of(told: io::Result<()>) -> Status
    ensures { MatchResult told (λ t. result ≡ Status.Done) (λ e. result ≡ Status.Link) }
{
    match told {
        Ok(()) => Status::Done,
        Err(_) => Status::Link,
    }
}
