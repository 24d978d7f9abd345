//! The turns of one place with the users.
ghost use Rattle.std.specs.Prelude.{◌≡◌, List, length, IsErr};
ghost use Rattle.std.specs.Arc.{arc_value};
ghost use Rattle.turnstile.specs.Dating.{newest};
ghost use Rattle.dxc_causes.specs.Stops.{RoseOnlyFor};
ghost use Rattle.user_admin.specs.declared.op.UserEntry.{UserEntry as Entry};
ghost use Rattle.user_admin.specs.Openings.{asked_at_turn};
ghost use Rattle.user_admin.specs.Resting.{SawRest};
ghost use Rattle.tl1_users.specs.Commands.{NamesUid};
ghost use Rattle.user_admin.specs.Turns.{AreNumbered, Cancels, LookedAt, Saw};
ghost use Rattle.user_admin.specs.Verdicts.{IsChanging};
ghost use Rattle.craft_session.specs.Seats.{IsSameUserSeat, IsUserSeated, UserSeatGoesOn, user_seat_at, users_hearing};
ghost use Rattle.craft_session.specs.Turns.{ChangesUsers, ListsUsers, LogsIn};

use crate::guesses::Guesses;
use crate::seat::Seat;
use crate::secrets::{Operation, Secrets};
use dxc_disk::Disk;
use dxc_model::{Cause, Class, Uid};
use dxc_outside::{Gate, Stopped};
use std::marker::Model;
use std::sync::{Arc, Wait};
use tl1_users::UserOp;
use turnstile::{Pass, Turnstile};
use user_admin::turns::{self, UserTook};
use user_admin::{SharedUsers, UserRows};

/// The right of one place to take turns at the users. Contracts see where their history began, the number of the place, and what it has seen of
/// the history.
#[derive(Drop)]
pub struct UserSeat<U: Disk> {
    pass: Pass,
    turns: Arc<Turnstile<SharedUsers<U>>>,
}

impl<U: Disk> Model for UserSeat<U> {
    ghost use Rattle.craft_session.specs.Seats.{UserSeatAt, user_seat_coded};

    ghost Value = { UserSeatAt };

    ghost coded = { user_seat_coded };

    ghost use Rattle.std.specs.Arc.{arc_value};
    ghost use Rattle.craft_session.specs.Seats.{IsUserSeated, user_seat_at};

    ghost view = { λ s. user_seat_at U.state s.pass (arc_value s.turns) };

    ghost invariant = { λ s. IsUserSeated U.state s.pass (arc_value s.turns) };
}

impl<U: Disk + Drop> UserSeat<U> {
    pub fn new(pass: Pass, turns: Arc<Turnstile<SharedUsers<U>>>) -> UserSeat<U>
        requires { IsUserSeated U.state pass (arc_value turns) }
        ensures { result ≡ user_seat_at U.state pass (arc_value turns) }
    {
        UserSeat { pass, turns }
    }

    /// Its next entries have higher dates than all that the place has seen at the state.
    pub fn hear<D: Disk + Drop>(&mut self, seat: &Seat<D>)
        ensures heard { self.new ≡ users_hearing self.old (newest seat.now.stamps) }
        ensures as_many { (length self.new.stamps ≡ length self.new.seen)
            × (length seat.now.stamps ≡ length seat.now.seen) }
    {
        self.pass.hear(seat.pass());
    }

    pub(crate) fn pass(&self) -> &Pass
        ensures stamps { result.now.stamps ≡ self.now.stamps }
        ensures as_many { length self.now.stamps ≡ length self.now.seen }
    {
        &self.pass
    }

    /// What it has seen is a history of the places' entries, in which the place hasn't got the users' keeper out.
    pub fn seen(&self)
        ensures history { (h : List Entry) × Saw self.now.opening self.now.seen h }
        ensures numbers { AreNumbered self.now.places self.now.seen }
        ensures rests { SawRest self.now.place self.now.seen }
    {
        // What the pass has seen is told by the type.
        let _ = &self.pass;
    }

    /// The class of the user of a name, case aside, who has the PID, as the users stand; and whether nobody is logged in there, so that the user
    /// logs in.
    pub fn login<R: Wait>(&mut self, vacant: bool, uid: Uid, pid: &[u8], rt: &R) -> Option<Class>
        ensures same { IsSameUserSeat self.old self.new }
        ensures goes { UserSeatGoesOn self.old self.new }
        ensures logged { LogsIn self.old (record { vacant = vacant; uid = uid; pid = pid.now })
            self.new.seen result }
    {
        turns::login(&mut self.pass, &self.turns, vacant, uid, pid, rt)
    }

    /// Ends the sessions of the user of a name, case aside.
    pub fn cancel<R: Wait>(&mut self, uid: Uid, rt: &R)
        ensures same { IsSameUserSeat self.old self.new }
        ensures goes { UserSeatGoesOn self.old self.new }
        ensures cancelled { (h : List Entry) → Saw self.old.opening self.old.seen h
            → Cancels self.old.opening self.old.place h uid self.new.seen }
    {
        turns::cancel(&mut self.pass, &self.turns, uid, rt);
    }

    /// Whether the sessions were ended of who logged in at this place last. Nothing is entered.
    pub fn is_cancelled<R: Wait>(&mut self, rt: &R) -> bool
        ensures same { IsSameUserSeat self.old self.new }
        ensures goes { UserSeatGoesOn self.old self.new }
        ensures looked { (h : List Entry) → Saw self.old.opening self.old.seen h
            → LookedAt self.old.opening self.old.place h self.new.seen result }
    {
        turns::is_cancelled(&mut self.pass, &self.turns, rt)
    }

    /// The names of all users with their classes, in order of names, or of one; UnknownUser is the only cause against it.
    pub fn rows<R: Wait>(&mut self, which: Option<Uid>, rt: &R) -> Result<UserRows, Cause>
        ensures same { IsSameUserSeat self.old self.new }
        ensures goes { UserSeatGoesOn self.old self.new }
        ensures rows { ListsUsers self.old which self.new.seen result }
    {
        turns::rows(&mut self.pass, &self.turns, which, rt)
    }

    /// Makes the change of a changing operation.
    pub fn change<G: Gate, R: Wait>(
        &mut self,
        op: UserOp,
        gate: &mut G,
        rt: &R,
    ) -> Result<UserTook, Stopped>
        requires changing { IsChanging op }
        requires named { NamesUid op }
        ensures same { IsSameUserSeat self.old self.new }
        ensures goes { UserSeatGoesOn self.old self.new }
        ensures took { ChangesUsers self.old op self.new.seen result }
        ensures stopped { RoseOnlyFor (G.stops gate.old) (G.stops gate.new) (IsErr result) }
        ensures asked { G.asked gate.old gate.new (asked_at_turn result) }
    {
        turns::change(&mut self.pass, &self.turns, op, gate, rt)
    }
}

/// A seat at the users, the rows that it read last, how often a log-in was denied there, whether a PID is to be written over, and what a unit asks
/// of the users.
#[derive(Drop)]
pub struct UserDesk<U: Disk> {
    pub seat: UserSeat<U>,
    pub rows: UserRows,
    pub guesses: Guesses,
    pub secrets: Secrets,
    pub asked: Operation,
}
