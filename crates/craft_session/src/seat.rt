ghost use Rattle.std.specs.Prelude.{◌≡◌, ◌≤◌, List, length, vec_capacity, IsErr};
ghost use Rattle.std.specs.Arc.{arc_value};
ghost use Rattle.std.specs.List.{AllByRecursion};
ghost use Rattle.turnstile.specs.Dating.{newest};
ghost use Rattle.tl1_answer.specs.Texts.{IsChangeOf, IsOfShape};
ghost use Rattle.dxc_causes.specs.Stops.{RoseOnlyFor};
ghost use Rattle.dxc_num.specs.Dimensions.{ports};
ghost use Rattle.dxc_model.specs.declared.entry.Entry.{Entry};
ghost use Rattle.dxc_model.specs.Histories.{kept};
ghost use Rattle.dxc_model.specs.Operations.{IsApt};
ghost use Rattle.xc_core.specs.Seeing.{Saw};
ghost use Rattle.xc_core.specs.Turns.{AreNumbered, HasPass, InventoryIs, IsInventoryOf, MarkIs, SawNoneAstray};
ghost use Rattle.craft_session.specs.Askings.{ChangeAsked, WarmAsked};
ghost use Rattle.craft_session.specs.Changing.{WarmRestartIs};
ghost use Rattle.craft_session.specs.Gated.{AreStateEntered};
ghost use Rattle.craft_session.specs.Seats.{IsSameSeat, IsSeated, SeatGoesOn, hearing, seat_at};
ghost use Rattle.craft_session.specs.Turns.{Changes, Finds, Lists};

use crate::change::{Changed, change_in_line};
use crate::mend::warm_restart;
use crate::users::UserSeat;
use dxc_disk::Disk;
use dxc_model::{Change, Conn, Op, Selection};
use dxc_outside::{Gate, Stopped};
use fabric_words::Fabric;
use std::marker::Model;
use std::sync::{Arc, Wait};
use turnstile::{Pass, Turnstile};
use xc_core::State;
use xc_core::turns::{self, Inventory, Looked};

/// The right of one place to take turns at the element's state, with the fabric that its Provisioner writes. Contracts see where the history
/// began, the number of the place, and what it has seen of the history.
#[derive(Drop)]
pub struct Seat<D: Disk> {
    pass: Pass,
    turns: Arc<Turnstile<State<D>>>,
    fabric: Arc<Fabric>,
}

impl<D: Disk> Model for Seat<D> {
    ghost use Rattle.craft_session.specs.Seats.{SeatAt, seat_coded};

    ghost Value = { SeatAt };

    ghost coded = { seat_coded };

    ghost use Rattle.std.specs.Arc.{arc_value};
    ghost use Rattle.craft_session.specs.Seats.{IsSeated, seat_at};

    ghost view = { λ s. seat_at D.state s.pass (arc_value s.turns) };

    ghost invariant = { λ s. IsSeated D.told D.state s.pass (arc_value s.turns)
        (arc_value s.fabric) };
}

impl<D: Disk + Drop> Seat<D> {
    pub fn new(pass: Pass, turns: Arc<Turnstile<State<D>>>, fabric: Arc<Fabric>) -> Seat<D>
        requires { IsSeated D.told D.state pass (arc_value turns) (arc_value fabric) }
        ensures { result ≡ seat_at D.state pass (arc_value turns) }
    {
        Seat {
            pass,
            turns,
            fabric,
        }
    }

    /// Its next entries have higher dates than all that the place has seen at the users.
    pub fn hear<U: Disk + Drop>(&mut self, users: &UserSeat<U>)
        ensures heard { self.new ≡ hearing self.old (newest users.now.stamps) }
        ensures as_many { (length self.new.stamps ≡ length self.new.seen)
            × (length users.now.stamps ≡ length users.now.seen) }
    {
        self.pass.hear(users.pass());
    }

    pub(crate) fn pass(&self) -> &Pass
        ensures stamps { result.now.stamps ≡ self.now.stamps }
        ensures as_many { length self.now.stamps ≡ length self.now.seen }
    {
        &self.pass
    }

    /// What it has seen is a history of the places' entries.
    pub fn seen(&self)
        ensures history { (h : List Entry) × Saw self.now.opening self.now.seen h }
        ensures numbers { AreNumbered self.now.places self.now.seen }
        ensures astray { SawNoneAstray D.told self.now.seen }
    {
        // What the pass has seen is told by the type.
        let _ = &self.pass;
    }

    /// Its pass and the turnstile, for turns that no session takes.
    pub fn into_pass(self) -> (Pass, Arc<Turnstile<State<D>>>)
        ensures seat { seat_at D.state result.0 (arc_value result.1) ≡ self }
        ensures pass { HasPass (arc_value result.1) result.0 }
    {
        let Seat {
            pass,
            turns,
            fabric: _,
        } = self;
        (pass, turns)
    }

    /// Gives the connections of a selection. It waits for the turn alone.
    #[inline(never)]
    pub fn rows<R: Wait>(&mut self, selection: Selection, into: &mut Vec<Conn>, rt: &R)
        requires room { ports self.old.opening.first.fold.table.shape ≤ vec_capacity into.old }
        ensures same { IsSameSeat self.old self.new }
        ensures goes { SeatGoesOn self.old self.new }
        ensures rows { Lists self.old selection self.new.seen into.new.items }
        ensures of_shape { AllByRecursion (IsOfShape self.old.opening.first.fold.table.shape)
            into.new.items }
        ensures room { vec_capacity into.new ≡ vec_capacity into.old }
    {
        turns::rows(&mut self.pass, &self.turns, selection, into, rt);
    }

    /// Gives the changes after a number.
    pub fn look<R: Wait>(&mut self, cursor: u64, into: &mut Vec<Change>, rt: &R) -> Looked
        requires room { kept ≤ vec_capacity into.old }
        ensures same { IsSameSeat self.old self.new }
        ensures goes { SeatGoesOn self.old self.new }
        ensures look { Finds self.old cursor self.new.seen result into.new.items }
        ensures few { length into.new.items ≤ result.newest }
        ensures of_shape { AllByRecursion (IsChangeOf self.old.opening.first.fold.table.shape)
            into.new.items }
        ensures room { vec_capacity into.old ≤ vec_capacity into.new }
    {
        turns::look(&mut self.pass, &self.turns, cursor, into, rt)
    }

    /// Gives the number of the newest change.
    pub fn mark<R: Wait>(&mut self, rt: &R) -> u64
        ensures same { IsSameSeat self.old self.new }
        ensures goes { SeatGoesOn self.old self.new }
        ensures mark { (h : List Entry) → Saw self.old.opening self.old.seen h
            → MarkIs self.old.opening self.old.place h self.new.seen result }
    {
        turns::mark(&mut self.pass, &self.turns, rt)
    }

    /// Gives which modules are equipped, and which middle is out of service.
    pub fn inventory<R: Wait>(&mut self, rt: &R) -> Inventory
        ensures same { IsSameSeat self.old self.new }
        ensures goes { SeatGoesOn self.old self.new }
        ensures inventory { (h : List Entry) → Saw self.old.opening self.old.seen h
            → InventoryIs self.old.opening self.old.place h self.new.seen result }
        ensures of_shape { IsInventoryOf self.old.opening.first.fold.table.shape result }
    {
        turns::read_inventory(&mut self.pass, &self.turns, rt)
    }

    /// Lets the next one go on who waits in the line of those who change something: for a session that makes no change until its caller sends more.
    pub fn call_next(&self) {
        self.turns.call_next();
    }

    /// Makes a restart. It waits in the line of those who change something, and for frames in the way.
    pub fn restart<G: Gate, R: Wait>(&mut self, gate: &mut G, rt: &R) -> Result<Changed, Stopped>
        ensures same { IsSameSeat self.old self.new }
        ensures goes { SeatGoesOn self.old self.new }
        ensures restarted { (h : List Entry) → Saw self.old.opening self.old.seen h
            → WarmRestartIs self.old.opening self.old.place h self.new.seen result }
        ensures stopped { RoseOnlyFor (G.stops gate.old) (G.stops gate.new) (IsErr result) }
        ensures asked { WarmAsked (G.asked gate.old gate.new) result }
        ensures entered { AreStateEntered self.old (G.asked gate.old gate.new) self.new.seen }
    {
        let turns: &Turnstile<State<D>> = &self.turns;
        turns.stand_in_line(rt);
        let restarted = warm_restart(&mut self.pass, turns, &self.fabric, gate, rt);
        turns.step_aside();
        restarted
    }

    /// Makes a change of the table, and of the registers before it. It waits in the line of those who change something, and for frames in the way; what
    /// the table denies meanwhile waits for the turn alone.
    #[inline(never)]
    pub fn change<G: Gate, R: Wait>(
        &mut self,
        op: &Op,
        gate: &mut G,
        rt: &R,
    ) -> Result<Changed, Stopped>
        requires apt { IsApt self.old.opening.first.fold.table.shape op.now }
        ensures same { IsSameSeat self.old self.new }
        ensures goes { SeatGoesOn self.old self.new }
        ensures changed { Changes self.old op.now self.new.seen result }
        ensures stopped { RoseOnlyFor (G.stops gate.old) (G.stops gate.new) (IsErr result) }
        ensures asked { ChangeAsked (G.asked gate.old gate.new) result }
        ensures entered { AreStateEntered self.old (G.asked gate.old gate.new) self.new.seen }
    {
        let turns: &Turnstile<State<D>> = &self.turns;
        change_in_line(&mut self.pass, turns, &self.fabric, op, gate, rt)
    }
}
