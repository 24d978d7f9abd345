//! The turns of a change: it is taken in hand or denied, and what came of it is brought home.
ghost use Rattle.std.specs.Prelude.{◌≡◌, []};
ghost use Rattle.dxc_model.specs.Operations.{IsApt};
ghost use Rattle.roll_engine.specs.Rollings.{rest_of};
ghost use Rattle.xc_core.specs.Turns.{HasPass, KeepsPass, SawNoneAstray};
ghost use Rattle.xc_core.specs.Views.{After, AtRest, Brings, CutFor, Cuts, Denies, FailedFor, Fails, HasSeen, OutFor, Takes, Upon, failing, shape_in};

use super::Took;
use crate::inside;
use crate::provisioner::Driver;
use crate::state::State;
use dxc_disk::Disk;
use dxc_model::{Cause, Entry, Op, Outcome};
use std::sync::Wait;
use turnstile::{Pass, Turnstile};

/// Takes the Provisioner out for a change, and plans it. The journal isn't called.
pub fn take<D: Disk + Drop, R: Wait>(
    pass: &mut Pass,
    turns: &Turnstile<State<D>>,
    op: &Op,
    rt: &R,
) -> Took<D>
    requires pass { HasPass turns.now pass.old }
    requires apt { IsApt (shape_in D.Disk turns.now) op.now }
    requires seen { HasSeen D.Disk turns.now pass.old }
    ensures pass { KeepsPass turns.now pass.old pass.new }
    ensures took { After D.Disk turns.now pass.old (Takes D.Disk op.now pass.new result) }
    ensures astray { SawNoneAstray D.told pass.new.seen }
{
    let mut turn = turns.enter(pass, rt);
    let took = inside::take(turn.state_mut(), op);
    let place = pass.number();
    // A denial goes by an exit of its own: where it joins the others, it is copied with room for planned bytes.
    if let Took::Denied(cause) = took {
        let outcome = inside::refused(cause);
        turns.leave(
            pass,
            turn,
            Entry {
                place,
                op: *op,
                outcome,
            },
        );
        return Took::Denied(cause);
    }
    match inside::outcome_of(&took) {
        Some(outcome) => {
            turns.leave(
                pass,
                turn,
                Entry {
                    place,
                    op: *op,
                    outcome,
                },
            );
            took
        }
        None => {
            turns.back(pass, turn);
            took
        }
    }
}

/// Asks the table alone, and enters the operation where that denies it: a denial waits for no change that another place makes. None: the table
/// grants it, or a restart comes first.
pub fn deny<D: Disk + Drop, R: Wait>(
    pass: &mut Pass,
    turns: &Turnstile<State<D>>,
    op: &Op,
    rt: &R,
) -> Option<Cause>
    requires pass { HasPass turns.now pass.old }
    requires apt { IsApt (shape_in D.Disk turns.now) op.now }
    requires seen { Upon D.Disk turns.now pass.old AtRest }
    ensures pass { KeepsPass turns.now pass.old pass.new }
    ensures denied { After D.Disk turns.now pass.old (Denies D.Disk op.now pass.new result) }
    ensures astray { SawNoneAstray D.told pass.new.seen }
{
    let turn = turns.enter(pass, rt);
    let place = pass.number();
    match inside::deny(turn.state(), op) {
        Some(cause) => {
            let outcome = inside::refused(cause);
            turns.leave(
                pass,
                turn,
                Entry {
                    place,
                    op: *op,
                    outcome,
                },
            );
            Some(cause)
        }
        None => {
            turns.back(pass, turn);
            None
        }
    }
}

/// Lets the table take the change whose writes are all made, and brings the Provisioner home.
pub fn bring<D: Disk + Drop, R: Wait>(
    pass: &mut Pass,
    turns: &Turnstile<State<D>>,
    op: &Op,
    driver: Box<Driver<D>>,
    rt: &R,
)
    requires pass { HasPass turns.now pass.old }
    requires taken { Upon D.Disk turns.now pass.old (OutFor D.Disk op.now driver.value) }
    requires done { rest_of driver.value.rolling ≡ [] }
    ensures pass { KeepsPass turns.now pass.old pass.new }
    ensures done { After D.Disk turns.now pass.old (Brings op.now pass.new) }
    ensures astray { SawNoneAstray D.told pass.new.seen }
{
    let mut turn = turns.enter(pass, rt);
    let change = inside::bring(turn.state_mut(), driver);
    let place = pass.number();
    let outcome = Outcome::Done(change);
    turns.leave(
        pass,
        turn,
        Entry {
            place,
            op: *op,
            outcome,
        },
    );
}

/// Brings the Provisioner home by a fault of its journal. The entry is of this operation: of the one for which it was taken, or of the one
/// that waited for the restart.
pub fn fail<D: Disk + Drop, R: Wait>(
    pass: &mut Pass,
    turns: &Turnstile<State<D>>,
    op: &Op,
    cause: Cause,
    driver: Box<Driver<D>>,
    rt: &R,
)
    requires pass { HasPass turns.now pass.old }
    requires failed { Upon D.Disk turns.now pass.old
        (FailedFor D.Disk (failing op.now cause driver.value)) }
    ensures pass { KeepsPass turns.now pass.old pass.new }
    ensures failed { After D.Disk turns.now pass.old
        (Fails D.Disk (failing op.now cause driver.value) pass.new) }
    ensures astray { SawNoneAstray D.told pass.new.seen }
{
    let mut turn = turns.enter(pass, rt);
    inside::fail(turn.state_mut(), driver);
    let place = pass.number();
    let outcome = Outcome::Failed(cause);
    turns.leave(
        pass,
        turn,
        Entry {
            place,
            op: *op,
            outcome,
        },
    );
}

/// Brings the Provisioner home halted, after a stop.
pub fn cut<D: Disk + Drop, R: Wait>(
    pass: &mut Pass,
    turns: &Turnstile<State<D>>,
    op: &Op,
    driver: Box<Driver<D>>,
    rt: &R,
)
    requires pass { HasPass turns.now pass.old }
    requires taken { Upon D.Disk turns.now pass.old (CutFor D.Disk op.now driver.value) }
    ensures pass { KeepsPass turns.now pass.old pass.new }
    ensures cut { After D.Disk turns.now pass.old (Cuts op.now pass.new) }
    ensures astray { SawNoneAstray D.told pass.new.seen }
{
    let mut turn = turns.enter(pass, rt);
    inside::cut(turn.state_mut(), driver);
    let place = pass.number();
    let outcome = Outcome::Cut;
    turns.leave(
        pass,
        turn,
        Entry {
            place,
            op: *op,
            outcome,
        },
    );
}
