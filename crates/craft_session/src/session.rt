ghost use Rattle.std.specs.Prelude.{◌≡◌, ◌≢◌, ◌≤◌, ◌<◌, ◌+◌, ◌^◌, ◌↔◌, false, List, [], length, take, IsErr, IsTrue};
ghost use Rattle.dxc_causes.specs.Causes.{Rose, Counted};
ghost use Rattle.dxc_causes.specs.Stops.{RoseOnlyFor};
ghost use Rattle.dxc_model.specs.declared.user.SessionUser.{SessionUser as AUser};
ghost use Rattle.tl1_text.specs.Reading.{Holds, hand};
ghost use Rattle.std.specs.Arc.{arc_value};
ghost use Rattle.craft_session.specs.Cancelling.{IsHeeding};
ghost use Rattle.craft_session.specs.Gated.{AreEntered};
ghost use Rattle.craft_session.specs.Gathered.{GoesOver, NotedBetween, PromptBetween, ServedBetween, desk_at};
ghost use Rattle.craft_session.specs.Meanings.{language_for};
ghost use Rattle.craft_session.specs.Desks.{place_of};
ghost use Rattle.craft_session.specs.Seats.{IsSameSeat, IsSameUserSeat};
ghost use Rattle.craft_session.specs.Sessions.{Writes};
ghost use Rattle.craft_session.specs.Stamps.{stamp_at};
ghost use Rattle.craft_session.specs.Timely.{WasTimely, telling};
ghost use Rattle.craft_session.specs.Idling.{IsAwake, IsIdle};
ghost use Rattle.craft_session.specs.Waiting.{IsLetGo, IsUnattended};
ghost use Rattle.craft_session.specs.Walks.{begun_by};

use crate::cancelled::is_cancelled;
use crate::desk::Desk;
use crate::end::{Progress, SessionEnd};
use crate::lent::Lent;
use crate::patience::{BYTES, Patience, QUIET, silent_after, waited_after};
use crate::reports::report;
use crate::timestamps::Timestamps;
use crate::unit::serve_unit;
use dxc_disk::Disk;
use dxc_notes::Notes;
use dxc_outside::{Gate, Got, Link, MOST_READS, Stopped};
use std::sync::Wait;

/// Answers the units that end in the first bytes of the piece, so many, writes over a PID in them, and lets the next one go on who waits in the line
/// of those who change something.
fn serve_piece<K: Link, C: Timestamps, G: Gate, N: Notes, D: Disk + Drop, U: Disk + Drop, R: Wait>(
    desk: &mut Desk<D, U>,
    link: &mut K,
    clock: &mut C,
    gate: &mut G,
    notes: &mut N,
    rt: &R,
    piece: &mut [u8],
    count: usize,
) -> Result<Progress, Stopped>
    requires within { count ≤ length piece.old }
    ensures length { length piece.new ≡ length piece.old }
    ensures shelf { desk.new.shelf ≡ desk.old.shelf }
    ensures seat { IsSameSeat desk.old.seat desk.new.seat }
    ensures users { IsSameUserSeat desk.old.users.seat desk.new.users.seat }
    ensures link { Writes K.told (K.state link.old) (K.state link.new) }
    ensures hung_up { K.hung_up link.new ≡ K.hung_up link.old }
    ensures goes { GoesOver (telling K.told C.told C.stamped)
        (desk_at (K.state link.old) (C.coming clock.old) desk.old)
        (desk_at (K.state link.new) (C.coming clock.new) desk.new)
        (take count piece.old) result }
    ensures stopped { RoseOnlyFor (G.stops gate.old) (G.stops gate.new) (IsErr result) }
    ensures asked { AreEntered desk.old.seat desk.old.users.seat (G.asked gate.old gate.new)
        desk.new.seat.seen desk.new.users.seat.seen }
    ensures noted { NotedBetween (telling K.told C.told C.stamped)
        (desk_at (K.state link.old) (C.coming clock.old) desk.old)
        (desk_at (K.state link.new) (C.coming clock.new) desk.new)
        (N.noted notes.old notes.new) }
{
    let progress = serve_units(desk, link, clock, gate, notes, rt, &piece[..count]);
    desk.forget(piece);
    desk.seat.call_next();
    progress
}

/// Answers the units that end in the piece.
fn serve_units<K: Link, C: Timestamps, G: Gate, N: Notes, D: Disk + Drop, U: Disk + Drop, R: Wait>(
    desk: &mut Desk<D, U>,
    link: &mut K,
    clock: &mut C,
    gate: &mut G,
    notes: &mut N,
    rt: &R,
    piece: &[u8],
) -> Result<Progress, Stopped>
    ensures shelf { desk.new.shelf ≡ desk.old.shelf }
    ensures seat { IsSameSeat desk.old.seat desk.new.seat }
    ensures users { IsSameUserSeat desk.old.users.seat desk.new.users.seat }
    ensures link { Writes K.told (K.state link.old) (K.state link.new) }
    ensures hung_up { K.hung_up link.new ≡ K.hung_up link.old }
    ensures goes { GoesOver (telling K.told C.told C.stamped)
        (desk_at (K.state link.old) (C.coming clock.old) desk.old)
        (desk_at (K.state link.new) (C.coming clock.new) desk.new)
        piece.now result }
    ensures stopped { RoseOnlyFor (G.stops gate.old) (G.stops gate.new) (IsErr result) }
    ensures asked { AreEntered desk.old.seat desk.old.users.seat (G.asked gate.old gate.new)
        desk.new.seat.seen desk.new.users.seat.seen }
    ensures noted { NotedBetween (telling K.told C.told C.stamped)
        (desk_at (K.state link.old) (C.coming clock.old) desk.old)
        (desk_at (K.state link.new) (C.coming clock.new) desk.new)
        (N.noted notes.old notes.new) }
{
    let mut at = 0;
    while at < piece.len() {
        let fed = desk.reader.feed(&piece[at..]);
        at += fed.taken;
        match serve_unit(desk, link, clock, gate, notes, rt, fed.unit)? {
            Progress::On => {}
            Progress::Cut => return Ok(Progress::Cut),
        }
    }
    Ok(Progress::On)
}

/// Serves the link from a desk that has read nothing yet.
pub(crate) fn serve<
    K: Link,
    C: Timestamps,
    G: Gate,
    N: Notes,
    D: Disk + Drop,
    U: Disk + Drop,
    R: Wait,
>(
    desk: &mut Desk<D, U>,
    piece: &mut [u8],
    patience: Patience,
    link: &mut K,
    clock: &mut C,
    gate: &mut G,
    notes: &mut N,
    rt: &R,
) -> SessionEnd
    requires room { 0 < length piece.old }
    requires nothing_read { Holds [] (hand desk.old.reader) }
    requires begun { desk.old.attending ≡ begun_by desk.old.attending.user }
    requires vacant { patience ≡ Patience.Limited → desk.old.attending.user ≡ AUser.Nobody }
    ensures shelf { desk.new.shelf ≡ desk.old.shelf }
    ensures seat { IsSameSeat desk.old.seat desk.new.seat }
    ensures users { IsSameUserSeat desk.old.users.seat desk.new.users.seat }
    ensures session { ServedBetween (telling K.told C.told C.stamped)
        (desk_at (K.state link.old) (C.coming clock.old) desk.old)
        (desk_at (K.state link.new) (C.coming clock.new) desk.new) result }
    ensures prompt { PromptBetween (telling K.told C.told C.stamped)
        (desk_at (K.state link.old) (C.coming clock.old) desk.old)
        (desk_at (K.state link.new) (C.coming clock.new) desk.new) K.begun }
    ensures timely { WasTimely (language_for desk.old.attending.user (arc_value desk.old.shelf))
        (telling K.told C.told C.stamped)
        (stamp_at (C.coming clock.old) (K.state link.old) desk.old.seat desk.old.users.seat)
        (stamp_at (C.coming clock.new) (K.state link.new) desk.new.seat desk.new.users.seat)
        result }
    ensures hung_up { K.hung_up link.new ≡ K.hung_up link.old }
    ensures end { (result ≡ SessionEnd.End) ↔ IsTrue (K.state link.new).ended }
    ensures all_read { K.told → result ≡ SessionEnd.End → (K.state link.new).left ≡ [] }
    ensures read_fault { result ≡ SessionEnd.ReadFault
        → Rose (K.state link.old).read_faults (K.state link.new).read_faults }
    ensures no_read_fault { result ≢ SessionEnd.ReadFault
        → (K.state link.new).read_faults ≡ (K.state link.old).read_faults }
    ensures write_fault { result ≡ SessionEnd.WriteFault
        → Rose (K.state link.old).write_faults (K.state link.new).write_faults }
    ensures stopped { result ≡ SessionEnd.Stopped → Rose (G.stops gate.old) (G.stops gate.new) }
    ensures unstopped { result ≢ SessionEnd.Stopped → G.stops gate.new ≡ G.stops gate.old }
    ensures later { G.stops gate.old ≤ G.stops gate.new }
    ensures asked { AreEntered desk.old.seat desk.old.users.seat (G.asked gate.old gate.new)
        desk.new.seat.seen desk.new.users.seat.seen }
    ensures noted { NotedBetween (telling K.told C.told C.stamped)
        (desk_at (K.state link.old) (C.coming clock.old) desk.old)
        (desk_at (K.state link.new) (C.coming clock.new) desk.new)
        (N.noted notes.old notes.new) }
    ensures spent { result ≡ SessionEnd.Spent
        → Counted (K.state link.old).reads (K.state link.new).reads (2 ^ 32) }
    ensures few { (K.state link.new).reads ≤ (K.state link.old).reads + 2 ^ 32 }
    ensures unattended { result ≡ SessionEnd.Unattended → IsUnattended ⟦<(K, C, G, D) as Lent>⟧
        desk.old.attending.user (place_of desk.old, link.old, clock.old, gate.old)
        (K.state link.new) }
    ensures attended { patience ≡ Patience.Endless → result ≢ SessionEnd.Unattended }
    ensures let_go { patience ≡ Patience.Limited → IsLetGo ⟦<(K, C, G, D) as Lent>⟧
        desk.old.attending.user (place_of desk.old, link.old, clock.old, gate.old)
        (K.state link.new) }
    ensures heeds { patience ≡ Patience.Limited → IsHeeding ⟦<(K, C, G, D) as Lent>⟧
        desk.old.attending.user (place_of desk.old, link.old, clock.old, gate.old)
        (K.state link.new) }
    ensures alone { patience ≡ Patience.Endless → result ≢ SessionEnd.Cancelled }
    ensures idle { result ≡ SessionEnd.Idle → IsIdle ⟦<(K, C, G, D) as Lent>⟧
        desk.old.attending.user (place_of desk.old, link.old, clock.old, gate.old)
        (K.state link.new) }
    ensures endless { patience ≡ Patience.Endless → result ≢ SessionEnd.Idle }
    ensures awake { patience ≡ Patience.Limited → IsAwake ⟦<(K, C, G, D) as Lent>⟧
        desk.old.attending.user (place_of desk.old, link.old, clock.old, gate.old)
        (K.state link.new) }
{
    // Their clauses tell that the seats have seen histories.
    desk.seat.seen();
    desk.users.seat.seen();
    let limits = desk.shelf.idle();
    let mut waited = 0;
    let mut silent = 0;
    for _ in 0..MOST_READS {
        if patience.is_over(&desk.attending, waited) {
            return SessionEnd::Unattended;
        }
        if patience.is_idle(limits, &desk.attending, silent) {
            return SessionEnd::Idle;
        }
        if is_cancelled(desk, patience, rt) {
            return SessionEnd::Cancelled;
        }
        let user = desk.attending.user;
        let read = match link.read(piece) {
            Got::Bytes(count) => match serve_piece(
                desk, link, clock, gate, notes, rt, piece, count,
            ) {
                Ok(Progress::On) => BYTES,
                Ok(Progress::Cut) => return SessionEnd::WriteFault,
                Err(Stopped) => return SessionEnd::Stopped,
            },
            Got::Quiet => match report(desk, link, clock, rt) {
                Progress::On => QUIET,
                Progress::Cut => return SessionEnd::WriteFault,
            },
            Got::End => return SessionEnd::End,
            Got::Failed => return SessionEnd::ReadFault,
        };
        waited = waited_after(user, waited, read);
        silent = silent_after(silent, read);
    }
    SessionEnd::Spent
}
