//! The turns of a restart.
ghost use Rattle.std.specs.Prelude.{◌≡◌, []};
ghost use Rattle.roll_engine.specs.Rollings.{rest_of};
ghost use Rattle.xc_core.specs.Turns.{HasPass, KeepsPass, SawNoneAstray};
ghost use Rattle.xc_core.specs.Views.{After, CutToRestart, CutsRestart, EndsRestart, HasSeen, Holds, OutToRestart, Upon};

use crate::provisioner::Driver;
use crate::resuming;
use crate::state::State;
use dxc_disk::Disk;
use dxc_model::{Entry, Op, Outcome};
use std::sync::Wait;
use turnstile::{Pass, Turnstile};

/// What came of a turn in which a restart was to begin.
#[derive(Drop)]
pub enum Held<D: Disk> {
    /// The place has the Provisioner, with a copy of the table; its journal is to be settled and read.
    Held(Box<Driver<D>>),
    /// Another place has the Provisioner; or no restart is due any more, for an operation that isn't INIT-SYS.
    Waits,
}

/// Takes the Provisioner out for a restart. The journal isn't called. `asked` is INIT-SYS, or a changing operation that found a restart due;
/// for that one nothing is done where none is due any more.
pub fn hold<D: Disk + Drop, R: Wait>(
    pass: &mut Pass,
    turns: &Turnstile<State<D>>,
    asked: &Op,
    rt: &R,
) -> Held<D>
    requires pass { HasPass turns.now pass.old }
    requires seen { HasSeen D.Disk turns.now pass.old }
    ensures pass { KeepsPass turns.now pass.old pass.new }
    ensures held { After D.Disk turns.now pass.old (Holds D.Disk asked.now pass.new result) }
    ensures astray { SawNoneAstray D.told pass.new.seen }
{
    let mut turn = turns.enter(pass, rt);
    let held = resuming::hold(turn.state_mut(), asked);
    let place = pass.number();
    match resuming::entry_of(&held) {
        Some((op, outcome)) => {
            turns.leave(pass, turn, Entry { place, op, outcome });
            held
        }
        None => {
            turns.back(pass, turn);
            held
        }
    }
}

/// Ends a restart whose writes are all made: the table takes the change that it lacked, if it lacked one, and the Provisioner is home.
pub fn end_restart<D: Disk + Drop, R: Wait>(
    pass: &mut Pass,
    turns: &Turnstile<State<D>>,
    asked: &Op,
    driver: Box<Driver<D>>,
    rt: &R,
)
    requires pass { HasPass turns.now pass.old }
    requires restart { Upon D.Disk turns.now pass.old (OutToRestart D.Disk asked.now driver.value) }
    requires done { rest_of driver.value.rolling ≡ [] }
    ensures pass { KeepsPass turns.now pass.old pass.new }
    ensures restarted { After D.Disk turns.now pass.old (EndsRestart asked.now pass.new) }
    ensures astray { SawNoneAstray D.told pass.new.seen }
{
    let _ = asked;
    let mut turn = turns.enter(pass, rt);
    let lacking = resuming::end(turn.state_mut(), driver);
    let place = pass.number();
    let op = Op::Restart;
    let outcome = Outcome::Restarted(lacking);
    turns.leave(pass, turn, Entry { place, op, outcome });
}

/// Brings the Provisioner home halted, after a stop in a restart.
pub fn cut_restart<D: Disk + Drop, R: Wait>(
    pass: &mut Pass,
    turns: &Turnstile<State<D>>,
    asked: &Op,
    driver: Box<Driver<D>>,
    rt: &R,
)
    requires pass { HasPass turns.now pass.old }
    requires restart { Upon D.Disk turns.now pass.old
        (CutToRestart D.Disk asked.now driver.value) }
    ensures pass { KeepsPass turns.now pass.old pass.new }
    ensures cut { After D.Disk turns.now pass.old (CutsRestart asked.now pass.new) }
    ensures astray { SawNoneAstray D.told pass.new.seen }
{
    let _ = asked;
    let mut turn = turns.enter(pass, rt);
    resuming::cut(turn.state_mut(), driver);
    let place = pass.number();
    let op = Op::Restart;
    let outcome = Outcome::Cut;
    turns.leave(pass, turn, Entry { place, op, outcome });
}
