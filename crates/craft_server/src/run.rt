ghost use Rattle.std.specs.Prelude.{◌≡◌, ◌≢◌};
ghost use Rattle.dxc_args.specs.Lines.{IsLine};
ghost use Rattle.dxc_args.specs.declared.line.Line.{Line as ALine};
ghost use Rattle.dxc_outside.specs.Asked.{AskedFor};
ghost use Rattle.dxc_jobs.specs.Missing.{IsOfNoOpening};
ghost use Rattle.dxc_element.specs.Openings.{named};
ghost use Rattle.craft_server.specs.Askings.{AskedBy, line_asked};
ghost use Rattle.craft_server.specs.Runs.{RanLine, RanWords};

use crate::load::run_load;
use crate::script::run_script;
use crate::serve::serve_all;
use crate::trial::run_trial;
use crate::world::World;
use craft_session::Timestamps;
use dxc_args::{Line, Status, WordsFault, line_of};
use dxc_element::{Names, run_check, run_export};
use dxc_jobs::run_standby;
use dxc_leaving::LetGo;
use dxc_notes::Noted;
use dxc_outside::{Clock, Gate, Link, Listener, Name, Opener, Spawner};
use std::alloc::Global;
use std::sync::Wait;

/// Runs a line of words: `script SHELF JOURNAL`, `check SHELF JOURNAL`, `export SHELF JOURNAL` or `serve SHELF JOURNAL ADDRESS LINES WORKERS`, by the names of
/// a shelf file, which is read in the form that `shelf_of` tells, and of a journal, which is made where it is new; or `script MODULES SLOTS`,
/// `standby JOURNAL ADDRESS`, or `load NUMBER`. The controller starts on what the journal stands for; that of `load` on a new journal in memory.
///
/// `script` serves one session over the terminal, and with the two numbers of a shape one on a new element of it, whose user is logged in and
/// whose journals are in memory; `check` writes each row of the table and the number of records to it, `export` the commands that make
/// that table on an element without connections; `serve`
/// serves 16 callers of the address at a time, and carries the frames of the lines with 1 to 8 workers. With one word more, PEER, it first
/// joins the standby there, which gets a copy of the journal and of each change; where that is lost it goes on alone. `standby` waits for one
/// primary at the address, and makes on the journal, which is to be new, what it sends, to the end of the link. `load` serves one session
/// that is sent the load script of the number, with a frame after each command, and writes one line that sums it up. The gate is asked
/// while the controller starts and, in `script` and `load`, before a change is journalled, before each register write and before the table takes a change.
pub fn dxc_run<O: Opener + LetGo, K: Link, C: Clock, G: Gate, P: Spawner, R: Wait>(
    alloc: Global,
    words: &[Name],
    opener: &mut O,
    terminal: &mut K,
    clock: &mut C,
    gate: &mut G,
    spawner: &mut P,
    rt: &R,
) -> Status
where
    O::Clock: Timestamps,
    O::Listener: Noted,
    <O::Listener as Listener>::Link: Send + 'static,
    <O::Listener as Noted>::Notes: Send + 'static,
    ensures words { result ≡ Status.BadWords → (l : ALine) → IsLine words.now l → ⊥ }
    ensures run { RanWords ⟦<(O, K, C, G, P) as World>⟧ words.now
        (opener, terminal, clock, gate, spawner) result }
    ensures asked { AskedBy (O.asked opener.old opener.new) words.now result }
    ensures hung_up { K.hung_up terminal.new ≡ K.hung_up terminal.old }
{
    match line_of(alloc, words) {
        Ok(line) => run_line(alloc, &line, opener, terminal, clock, gate, spawner, rt),
        Err(WordsFault::BadWords) => Status::BadWords,
        Err(WordsFault::NoMemory) => Status::NoMemory,
    }
}

// Runs the mode that a line asks for.
fn run_line<O: Opener + LetGo, K: Link, C: Clock, G: Gate, P: Spawner, R: Wait>(
    alloc: Global,
    line: &Line,
    opener: &mut O,
    terminal: &mut K,
    clock: &mut C,
    gate: &mut G,
    spawner: &mut P,
    rt: &R,
) -> Status
where
    O::Clock: Timestamps,
    O::Listener: Noted,
    <O::Listener as Listener>::Link: Send + 'static,
    <O::Listener as Noted>::Notes: Send + 'static,
    ensures words { result ≢ Status.BadWords }
    ensures run { RanLine ⟦<(O, K, C, G, P) as World>⟧ line.now
        (opener, terminal, clock, gate, spawner) result }
    ensures asked { AskedFor (O.asked opener.old opener.new) (line_asked line.now)
        (IsOfNoOpening result) }
    ensures hung_up { K.hung_up terminal.new ≡ K.hung_up terminal.old }
{
    match line {
        Line::Script { shelf, journal } => {
            let names = names_of(shelf, journal);
            run_script(alloc, opener, names, terminal, clock, gate, rt)
        }
        Line::Trial { shape } => run_trial(alloc, *shape, terminal, clock, gate, rt),
        Line::Check { shelf, journal } => {
            let names = names_of(shelf, journal);
            run_check(alloc, opener, names, terminal, gate)
        }
        Line::Export { shelf, journal } => {
            let names = names_of(shelf, journal);
            run_export(alloc, opener, names, terminal, gate)
        }
        Line::Serve(line) => serve_all(alloc, opener, line, gate, spawner, rt),
        Line::Standby { journal, address } => {
            run_standby(alloc, opener, journal.text(), address.text(), rt)
        }
        Line::Load { number } => run_load(alloc, *number, terminal, gate, rt),
    }
}

fn names_of<'a>(shelf: &'a Name, journal: &'a Name) -> Names<'a>
    ensures { named result.shelf.now result.journal.now ≡ named shelf.now journal.now }
{
    Names {
        shelf: shelf.text(),
        journal: journal.text(),
    }
}
