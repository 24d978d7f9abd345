//! One unit that ended: read as a command, done, answered and noted.
ghost use Rattle.std.specs.Prelude.{◌≡◌, ◌≢◌, ◌≤◌, ◌<◌, ◌+◌, false, ℕ, List, length, IfOk, IsErr, IsOk};
ghost use Rattle.dxc_causes.specs.Stops.{RoseOnlyFor};
ghost use Rattle.std.specs.Arc.{arc_value};
ghost use Rattle.craft_session.specs.Asks.{IsAptAsk};
ghost use Rattle.craft_session.specs.Gated.{AreEntered};
ghost use Rattle.craft_session.specs.Gathered.{AnsweredBetween, GoesBetween, NotedBetween, desk_at};
ghost use Rattle.craft_session.specs.Hearing.{left};
ghost use Rattle.craft_session.specs.Meanings.{wants};
ghost use Rattle.craft_session.specs.Desks.{asker, input_of, put_down, ConsultedBy};
ghost use Rattle.craft_session.specs.Noted.{UsersNoted};
ghost use Rattle.craft_session.specs.Seats.{IsSameSeat, IsSameUserSeat, TableInTurn, UserSeatGoesOn, UsersInTurn};
ghost use Rattle.craft_session.specs.Sessions.{Writes};
ghost use Rattle.craft_session.specs.Stamps.{stamp_at};
ghost use Rattle.craft_session.specs.Timely.{in_hand, telling};

use crate::act::act;
use crate::ask::Ask;
use crate::desk::Desk;
use crate::end::Progress;
use crate::meaning::read;
use crate::noting::note_unit;
use crate::reports::report;
use crate::say::say;
use crate::timestamps::Timestamps;
use crate::user_commands::consult;
use dxc_disk::Disk;
use dxc_model::Cause;
use dxc_notes::Notes;
use dxc_outside::{Gate, Link, Stopped};
use std::sync::Wait;
use tl1_text::{Ctag, UnitKind};

/// Answers the unit that ended, if one did, and reports what changed.
pub(crate) fn serve_unit<
    K: Link,
    C: Timestamps,
    G: Gate,
    N: Notes,
    D: Disk + Drop,
    U: Disk + Drop,
    R: Wait,
>(
    desk: &mut Desk<D, U>,
    link: &mut K,
    clock: &mut C,
    gate: &mut G,
    notes: &mut N,
    rt: &R,
    kind: UnitKind,
) -> Result<Progress, Stopped>
    requires short { kind ≡ UnitKind.Whole → length desk.old.reader.kept ≤ 2047 }
    ensures shelf { desk.new.shelf ≡ desk.old.shelf }
    ensures seat { IsSameSeat desk.old.seat desk.new.seat }
    ensures users { IsSameUserSeat desk.old.users.seat desk.new.users.seat }
    ensures reader { desk.new.reader ≡ desk.old.reader }
    ensures link { Writes K.told (K.state link.old) (K.state link.new) }
    ensures hung_up { K.hung_up link.new ≡ K.hung_up link.old }
    ensures goes { (ahead : List ℕ) → GoesBetween (telling K.told C.told C.stamped)
        (desk_at (K.state link.old) (C.coming clock.old) desk.old)
        (desk_at (K.state link.new) (C.coming clock.new) desk.new)
        (in_hand desk.old.attending false kind desk.old.reader ahead) result }
    ensures stopped { RoseOnlyFor (G.stops gate.old) (G.stops gate.new) (IsErr result) }
    ensures asked { AreEntered desk.old.seat desk.old.users.seat (G.asked gate.old gate.new)
        desk.new.seat.seen desk.new.users.seat.seen }
    ensures noted { NotedBetween (telling K.told C.told C.stamped)
        (desk_at (K.state link.old) (C.coming clock.old) desk.old)
        (desk_at (K.state link.new) (C.coming clock.new) desk.new)
        (N.noted notes.old notes.new) }
{
    match kind {
        UnitKind::More => Ok(Progress::On),
        UnitKind::Whole | UnitKind::TooLong => attend(desk, link, clock, gate, notes, rt, kind),
    }
}

/// Does what the unit that ended asks, answers it, and reports what changed.
fn attend<K: Link, C: Timestamps, G: Gate, N: Notes, D: Disk + Drop, U: Disk + Drop, R: Wait>(
    desk: &mut Desk<D, U>,
    link: &mut K,
    clock: &mut C,
    gate: &mut G,
    notes: &mut N,
    rt: &R,
    kind: UnitKind,
) -> Result<Progress, Stopped>
    requires ended { kind ≢ UnitKind.More }
    requires short { kind ≡ UnitKind.Whole → length desk.old.reader.kept ≤ 2047 }
    ensures shelf { desk.new.shelf ≡ desk.old.shelf }
    ensures seat { IsSameSeat desk.old.seat desk.new.seat }
    ensures users { IsSameUserSeat desk.old.users.seat desk.new.users.seat }
    ensures reader { desk.new.reader ≡ desk.old.reader }
    ensures link { Writes K.told (K.state link.old) (K.state link.new) }
    ensures hung_up { K.hung_up link.new ≡ K.hung_up link.old }
    ensures goes { (ahead : List ℕ) → GoesBetween (telling K.told C.told C.stamped)
        (desk_at (K.state link.old) (C.coming clock.old) desk.old)
        (desk_at (K.state link.new) (C.coming clock.new) desk.new)
        (in_hand desk.old.attending false kind desk.old.reader ahead) result }
    ensures stopped { RoseOnlyFor (G.stops gate.old) (G.stops gate.new) (IsErr result) }
    ensures asked { AreEntered desk.old.seat desk.old.users.seat (G.asked gate.old gate.new)
        desk.new.seat.seen desk.new.users.seat.seen }
    ensures noted { NotedBetween (telling K.told C.told C.stamped)
        (desk_at (K.state link.old) (C.coming clock.old) desk.old)
        (desk_at (K.state link.new) (C.coming clock.new) desk.new)
        (N.noted notes.old notes.new) }
{
    match answer(desk, link, clock, gate, notes, rt, kind)? {
        Progress::On => Ok(report(desk, link, clock, rt)),
        Progress::Cut => Ok(Progress::Cut),
    }
}

/// Does what the unit that ended asks, and writes the response with the next moment. Where the gate stops there is no response.
fn answer<K: Link, C: Timestamps, G: Gate, N: Notes, D: Disk + Drop, U: Disk + Drop, R: Wait>(
    desk: &mut Desk<D, U>,
    link: &mut K,
    clock: &mut C,
    gate: &mut G,
    notes: &mut N,
    rt: &R,
    kind: UnitKind,
) -> Result<Progress, Stopped>
    requires short { kind ≡ UnitKind.Whole → length desk.old.reader.kept ≤ 2047 }
    ensures shelf { desk.new.shelf ≡ desk.old.shelf }
    ensures seat { IsSameSeat desk.old.seat desk.new.seat }
    ensures users { IsSameUserSeat desk.old.users.seat desk.new.users.seat }
    // The place hears of the users before it asks the table, and of the table before it asks the users.
    ensures users_in_turn { UsersInTurn desk.old.seat desk.old.users.seat desk.new.users.seat }
    ensures in_turn { TableInTurn desk.new.users.seat desk.old.seat desk.new.seat }
    ensures reader { desk.new.reader ≡ desk.old.reader }
    ensures link { Writes K.told (K.state link.old) (K.state link.new) }
    ensures hung_up { K.hung_up link.new ≡ K.hung_up link.old }
    ensures answered { AnsweredBetween (telling K.told C.told C.stamped)
        (desk_at (K.state link.old) (C.coming clock.old) desk.old)
        (desk_at (K.state link.new) (C.coming clock.new) desk.new)
        (input_of kind desk.old.reader) result }
    ensures stamped { IsOk result → C.stamped (stamp_at (C.coming clock.old)
        (K.state link.old) desk.new.seat desk.new.users.seat) }
    ensures stopped { RoseOnlyFor (G.stops gate.old) (G.stops gate.new) (IsErr result) }
    ensures asked { AreEntered desk.old.seat desk.old.users.seat (G.asked gate.old gate.new)
        desk.new.seat.seen desk.new.users.seat.seen }
    ensures noted { NotedBetween (telling K.told C.told C.stamped)
        (desk_at (K.state link.old) (C.coming clock.old) desk.old)
        (desk_at (K.state link.new) (C.coming clock.new) desk.new)
        (N.noted notes.old notes.new) }
{
    let mut tag = None;
    let mut ask = Ask::Completes;
    desk.users.seat.hear(&desk.seat);
    ask_of(desk, &mut tag, &mut ask, gate, notes, rt, kind)?;
    desk.seat.hear(&desk.users.seat);
    let acted = act(
        &mut desk.seat,
        &mut desk.attending,
        &mut desk.rows,
        &ask,
        gate,
        rt,
    )?;
    note_unit(
        notes,
        desk.shelf.shape(),
        &desk.attending.user,
        &tag,
        &ask,
        &acted,
        &mut desk.standing,
    );
    Ok(Progress::of(say(desk, link, clock, &tag, acted)))
}

/// Puts down the tag of the unit that ended, and what it asks after what the users answer to it. Err: the gate stopped before they were changed.
fn ask_of<G: Gate, N: Notes, D: Disk + Drop, U: Disk + Drop, R: Wait>(
    desk: &mut Desk<D, U>,
    tag: &mut Option<Ctag>,
    ask: &mut Ask,
    gate: &mut G,
    notes: &mut N,
    rt: &R,
    kind: UnitKind,
) -> Result<(), Stopped>
    requires short { kind ≡ UnitKind.Whole → length desk.old.reader.kept ≤ 2047 }
    ensures shelf { desk.new.shelf ≡ desk.old.shelf }
    ensures seat { desk.new.seat ≡ desk.old.seat }
    ensures users { IsSameUserSeat desk.old.users.seat desk.new.users.seat }
    ensures goes { UserSeatGoesOn desk.old.users.seat desk.new.users.seat }
    ensures attending { desk.new.attending ≡ desk.old.attending }
    ensures reader { desk.new.reader ≡ desk.old.reader }
    ensures consulted { ConsultedBy
        (asker (arc_value desk.old.shelf) desk.old.attending.user (input_of kind desk.old.reader))
        desk.old.users.seat (tag.new, ask.new) (left desk.new.users.rows.items
        desk.new.users.seat.seen (G.asked gate.old gate.new)) result }
    ensures noted { UsersNoted (N.noted notes.old notes.new) desk.old.attending.user tag.new
        (wants (arc_value desk.old.shelf) desk.old.attending.user (input_of kind desk.old.reader))
        (put_down result ask.new) }
    ensures apt { IfOk (put_down result ask.new) (IsAptAsk (arc_value desk.old.shelf).shape) }
    ensures stopped { RoseOnlyFor (G.stops gate.old) (G.stops gate.new) (IsErr result) }
{
    desk.users.rows.clear();
    match kind {
        UnitKind::Whole => {
            let user = &desk.attending.user;
            let unit = desk.reader.unit();
            let meaning = read(&desk.shelf, user, unit, tag, ask, &mut desk.users.asked);
            consult(
                &mut desk.users,
                user,
                unit,
                meaning,
                tag,
                ask,
                gate,
                notes,
                rt,
            )
        }
        UnitKind::TooLong | UnitKind::More => {
            *tag = None;
            *ask = Ask::Refused(Cause::TooLong);
            Ok(())
        }
    }
}
