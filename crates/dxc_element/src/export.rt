//! What a journal came to, as the commands that make it on another element.
ghost use Rattle.std.specs.Prelude.{◌≡◌};
ghost use Rattle.std.specs.List.{AllByRecursion};
ghost use Rattle.dxc_outside.specs.Asked.{AskedFor};
ghost use Rattle.dxc_outside.specs.Links.{IsSent};
ghost use Rattle.dxc_jobs.specs.Missing.{IsOfNoOpening};
ghost use Rattle.tl1_answer.specs.Texts.{IsChangeOf};
ghost use Rattle.tl1_script.specs.Commands.{lines_from};
ghost use Rattle.dxc_element.specs.Auditing.{lent, told_by};
ghost use Rattle.dxc_element.specs.Exports.{Exports};
ghost use Rattle.dxc_element.specs.Openings.{files_asked, named, sources};

use crate::check::WORKERS;
use crate::opening::{Element, Names, open};
use arrayvec::ArrayVec;
use dxc_args::Status;
use dxc_leaving::LetGo;
use dxc_model::Change;
use dxc_num::Shape;
use dxc_outside::{Gate, Link, Opener, Sent, write_all};
use std::alloc::Global;
use tl1_script::{changes_to, command_line};

/// Writes to the terminal the commands that make, on an element without connections that equips what the shelf file equips, what the journal
/// of a controller came to that is opened on these names. The controller and its users are let go as they were opened.
pub fn run_export<O: Opener + LetGo, K: Link, G: Gate>(
    alloc: Global,
    opener: &mut O,
    names: Names<'_>,
    terminal: &mut K,
    gate: &mut G,
) -> Status
    ensures opens { Exports (told_by O.told O.Journal.told O.Journal.state K.told O.gone)
        (named names.entry.shelf.now names.entry.journal.now)
        (lent (sources (O.state opener.old) (O.journal_at opener.old) (G.stops gate.old))
        (K.state terminal.old))
        (lent (sources (O.state opener.new) (O.journal_at opener.new) (G.stops gate.new))
        (K.state terminal.new)) result }
    ensures asked { AskedFor (O.asked opener.old opener.new)
        (files_asked (named names.entry.shelf.now names.entry.journal.now))
        (IsOfNoOpening result) }
    ensures hung_up { K.hung_up terminal.new ≡ K.hung_up terminal.old }
{
    let Element { controller, users } = match open(alloc, opener, names, WORKERS, gate) {
        Ok(element) => element,
        Err(status) => return status,
    };
    let Ok(changes) = changes_to(alloc, controller.shelf.equipped(), &controller.state.table) else {
        opener.let_go(Element { controller, users });
        return Status::NoMemory;
    };
    let status = Status::of_sent(write_commands(terminal, controller.shelf.shape(), &changes));
    opener.let_go(Element { controller, users });
    status
}

// Writes a command for each change, with the CTAGs from 1 on.
fn write_commands<K: Link>(link: &mut K, shape: Shape, changes: &[Change]) -> Sent
    requires { AllByRecursion (IsChangeOf shape) changes.now }
    ensures sent { IsSent K.told (K.state link.old) (K.state link.new) result
        (lines_from shape 1 changes.now) }
    ensures hung_up { K.hung_up link.new ≡ K.hung_up link.old }
{
    let mut text = ArrayVec::new();
    for at in 0..changes.len() {
        command_line(shape, at as u64 + 1, &changes[at], &mut text);
        match write_all(link, text.as_slice()) {
            Sent::Whole => {}
            Sent::Cut => return Sent::Cut,
        }
    }
    Sent::Whole
}
