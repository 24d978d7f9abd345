//! What the registers hold between sessions.
ghost use Rattle.std.specs.Prelude.{◌≡◌, IfOk, IfSome, List};
ghost use Rattle.std.specs.Arc.{arc_value};
ghost use Rattle.dxc_model.specs.declared.entry.Entry.{Entry};
ghost use Rattle.xc_core.specs.States.{Opening, StandsFor, opening_of};
ghost use Rattle.craft_session.specs.Places.{IsAtOpening};
ghost use Rattle.craft_session.specs.Seats.{IsSeated, seat_at};

use crate::places::Turns;
use anyhow::{Result, bail};
use dxc_disk::Disk;
use dxc_num::Reg;
use fabric_words::{Fabric, MoverSeat};
use std::alloc::Global;
use std::marker::Model;
use std::sync::Wait;
use turnstile::{Pass, Turnstile};
use worked_frames::{Ground, is_inside, registers};
use xc_core::{Driver, Errand, Provisioner, State, release};

/// One who looks at all registers in a turn.
#[derive(Drop)]
pub struct Audit<D: Disk> {
    pub(crate) pass: Pass,
    pub(crate) turns: Turns<D>,
    pub(crate) ground: Ground,
}

impl<D: Disk> Model for Audit<D> {
    ghost use Rattle.std.specs.Arc.{arc_value};
    ghost use Rattle.xc_core.specs.States.{opening_of};
    ghost use Rattle.craft_session.specs.Places.{IsAtOpening};
    ghost use Rattle.craft_session.specs.Seats.{IsSeated, SeatAt, seat_at, seat_coded};

    ghost Value = { SeatAt };

    ghost coded = { seat_coded };

    ghost view = { λ s. seat_at D.state s.pass (arc_value s.turns) };

    ghost invariant = { λ s. IsSeated D.told D.state s.pass (arc_value s.turns)
        (arc_value s.ground.fabric) × IsAtOpening (opening_of D.state (arc_value s.turns).first)
        (arc_value s.ground.shelf) (arc_value s.ground.fabric) };
}

impl<D: Disk + Drop> Audit<D> {
    pub fn new(pass: Pass, turns: Turns<D>, ground: Ground) -> Audit<D>
        requires seated { IsSeated D.told D.state pass (arc_value turns) (arc_value ground.fabric) }
        requires opening { IsAtOpening (opening_of D.state (arc_value turns).first)
            (arc_value ground.shelf) (arc_value ground.fabric) }
        ensures { result ≡ seat_at D.state pass (arc_value turns) }
    {
        Audit {
            pass,
            turns,
            ground,
        }
    }

    /// All register words: IN by module and middle, MID by middle and module, OUT by port.
    pub fn words<R: Wait>(&mut self, alloc: Global, rt: &R) -> Result<Vec<u64>> {
        words_in_turn(alloc, &mut self.pass, &self.turns, &self.ground.fabric, rt)
    }

    /// Ends the controller between sessions.
    pub fn release<R: Wait>(self, rt: &R) -> Result<Released<D>>
        ensures { IfOk result (λ r. r.seat.fabric ≡ arc_value r.ground.fabric) }
    {
        let Audit {
            mut pass,
            turns,
            ground,
        } = self;
        let Some((disk, seat)) = end_in_turn(&mut pass, &turns, &ground.fabric, rt) else {
            bail!("the Provisioner is out");
        };
        Ok(Released { disk, seat, ground })
    }
}

/// What a controller's end leaves: the journal's disk, the seat of the one who writes the registers, and these with the shelf.
#[derive(Drop)]
pub struct Released<D: Disk> {
    pub disk: D,
    pub seat: MoverSeat,
    pub ground: Ground,
}

// The disk of the state's Provisioner and the seat, in a turn that nobody leaves any more.
fn end_in_turn<D: Disk + Drop, R: Wait>(
    pass: &mut Pass,
    turns: &Turnstile<State<D>>,
    fabric: &Fabric,
    rt: &R,
) -> Option<(D, MoverSeat)>
    requires { IsSeated D.told D.state pass.old turns.now fabric.now }
    ensures { IfSome result (λ r. r.1.fabric ≡ fabric.now) }
{
    let _ = fabric;
    let mut turn = turns.enter(pass, rt);
    let Some(driver) = turn.state_mut().take_out(Errand::Restart) else {
        return None;
    };
    let Driver { p, rolling: _ } = Box::into_inner(driver);
    Some(release(p))
}

/// The words as a turn of the pass finds them. It adds nothing to the history.
pub fn words_in_turn<D: Disk + Drop, R: Wait>(
    alloc: Global,
    pass: &mut Pass,
    turns: &Turnstile<State<D>>,
    fabric: &Fabric,
    rt: &R,
) -> Result<Vec<u64>>
    requires { IsSeated D.told D.state pass.old turns.now fabric.now }
    ensures { IsSeated D.told D.state pass.new turns.now fabric.now }
{
    let mut turn = turns.enter(pass, rt);
    let words = words_of(alloc, turn.state_mut(), fabric);
    turns.back(pass, turn);
    words
}

// The words that the state's Provisioner reads.
fn words_of<D: Disk + Drop>(
    alloc: Global,
    state: &mut State<D>,
    fabric: &Fabric,
) -> Result<Vec<u64>>
    requires { (o : Opening) × (h : List Entry) × StandsFor D.told D.state o state.old h
        × (o.site.fabric ≡ fabric.now) }
    ensures { state.new ≡ state.old }
{
    let Some(mut driver) = state.take_out(Errand::Restart) else {
        bail!("the Provisioner is out");
    };
    let held = &mut *driver;
    let words = load_all(alloc, &mut held.p, fabric);
    state.bring_home(driver);
    words
}

fn load_all<D: Disk>(alloc: Global, p: &mut Provisioner<D>, fabric: &Fabric) -> Result<Vec<u64>>
    requires { p.old.mover.fabric ≡ fabric.now }
    ensures { p.new ≡ p.old }
{
    let mut words = Vec::new(alloc);
    for reg in &registers(alloc, fabric.shape())? {
        words.push(load(p, fabric, *reg))?;
    }
    Ok(words)
}

// The register's word; 0 where there is no such register.
fn load<D: Disk>(p: &mut Provisioner<D>, fabric: &Fabric, reg: Reg) -> u64
    requires { p.old.mover.fabric ≡ fabric.now }
    ensures { p.new ≡ p.old }
{
    if is_inside(fabric.shape(), reg) {
        p.load(fabric, reg)
    } else {
        0
    }
}
