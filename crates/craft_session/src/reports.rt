//! Reports of what changed, each with the next moment.
ghost use Rattle.std.specs.Prelude.{◌≡◌, ◌≤◌, ◌<◌, ◌^◌, Ok, Some, ℕ, ◌+◌, List, length, slice_index_or};
ghost use Rattle.std.specs.Arc.{arc_value};
ghost use Rattle.std.specs.List.{AllByRecursion};
ghost use Rattle.dxc_model.specs.declared.op.Change.{Change};
ghost use Rattle.tl1_text.specs.Reading.{Reader};
ghost use Rattle.tl1_answer.specs.Texts.{IsChangeOf};
ghost use Rattle.tl1_answer.specs.Messages.{report as whole_report};
ghost use Rattle.craft_session.specs.Meanings.{language};
ghost use Rattle.craft_session.specs.Notices.{change, found_notices, lead, numbered};
ghost use Rattle.craft_session.specs.Responses.{lost_text as text_of_lost};
ghost use Rattle.craft_session.specs.Gated.{AreStateEntered, NothingAsked};
ghost use Rattle.craft_session.specs.Gathered.{GoesBetween, ReportedBetween, ToldBetween, desk_at, to_report};
ghost use Rattle.craft_session.specs.Noted.{HasLooked};
ghost use Rattle.craft_session.specs.Seats.{IsSameSeat};
ghost use Rattle.craft_session.specs.Sessions.{Writes};
ghost use Rattle.craft_session.specs.Stamps.{AreStamped, stamp_at};
ghost use Rattle.craft_session.specs.Timely.{telling};

use crate::desk::Desk;
use crate::end::Progress;
use crate::timestamps::Timestamps;
use arrayvec::ArrayVec;
use dbchg_reports::Since;
use dxc_disk::Disk;
use dxc_outside::{Link, Sent, write_all};
use std::sync::Wait;
use tl1_answer::change_text;
use xc_core::turns::Looked;

/// Looks for changes where reports are allowed, and writes a report of each, with the next moments.
#[inline(always)]
pub fn report<K: Link, C: Timestamps, D: Disk + Drop, U: Disk + Drop, R: Wait>(
    desk: &mut Desk<D, U>,
    link: &mut K,
    clock: &mut C,
    rt: &R,
) -> Progress
    ensures shelf { desk.new.shelf ≡ desk.old.shelf }
    ensures seat { IsSameSeat desk.old.seat desk.new.seat }
    ensures users { desk.new.users ≡ desk.old.users }
    ensures reader { desk.new.reader ≡ desk.old.reader }
    ensures link { Writes K.told (K.state link.old) (K.state link.new) }
    ensures hung_up { K.hung_up link.new ≡ K.hung_up link.old }
    ensures goes { (r : Reader) → (ahead : List ℕ) → GoesBetween
        (telling K.told C.told C.stamped)
        (desk_at (K.state link.old) (C.coming clock.old) desk.old)
        (desk_at (K.state link.new) (C.coming clock.new) desk.new)
        (to_report desk.old.attending r ahead) (Ok result) }
    ensures entered { AreStateEntered desk.old.seat NothingAsked desk.new.seat.seen }
    ensures looked { HasLooked desk.old.seat desk.new.seat.seen }
    ensures user { desk.new.attending.user ≡ desk.old.attending.user }
{
    match desk.attending.watch {
        Some(cursor) => report_since(desk, link, clock, cursor, rt),
        None => Progress::On,
    }
}

/// Looks for changes after the cursor, and writes a report of each, with the next moments.
// Apart, since a session without reports clears no room of a look.
#[inline(never)]
fn report_since<K: Link, C: Timestamps, D: Disk + Drop, U: Disk + Drop, R: Wait>(
    desk: &mut Desk<D, U>,
    link: &mut K,
    clock: &mut C,
    cursor: u64,
    rt: &R,
) -> Progress
    requires watched { desk.old.attending.watch ≡ Some cursor }
    ensures shelf { desk.new.shelf ≡ desk.old.shelf }
    ensures seat { IsSameSeat desk.old.seat desk.new.seat }
    ensures users { desk.new.users ≡ desk.old.users }
    ensures reader { desk.new.reader ≡ desk.old.reader }
    ensures link { Writes K.told (K.state link.old) (K.state link.new) }
    ensures hung_up { K.hung_up link.new ≡ K.hung_up link.old }
    ensures goes { (r : Reader) → (ahead : List ℕ) → GoesBetween
        (telling K.told C.told C.stamped)
        (desk_at (K.state link.old) (C.coming clock.old) desk.old)
        (desk_at (K.state link.new) (C.coming clock.new) desk.new)
        (to_report desk.old.attending r ahead) (Ok result) }
    ensures entered { AreStateEntered desk.old.seat NothingAsked desk.new.seat.seen }
    ensures looked { HasLooked desk.old.seat desk.new.seat.seen }
    ensures user { desk.new.attending.user ≡ desk.old.attending.user }
{
    desk.seat.hear(&desk.users.seat);
    let looked = desk.seat.look(cursor, &mut desk.changes, rt);
    desk.attending.watch = Some(looked.newest);
    Progress::of(tell(desk, link, clock, looked))
}

/// Writes the reports of what a look found, each with the next moment.
#[inline(never)]
fn tell<K: Link, C: Timestamps, D: Disk + Drop, U: Disk + Drop>(
    desk: &mut Desk<D, U>,
    link: &mut K,
    clock: &mut C,
    looked: Looked,
) -> Sent
    requires few { length desk.old.changes.items ≤ looked.newest }
    requires of_shape { AllByRecursion (IsChangeOf desk.old.seat.opening.first.fold.table.shape)
        desk.old.changes.items }
    ensures shelf { desk.new.shelf ≡ desk.old.shelf }
    ensures seat { desk.new.seat ≡ desk.old.seat }
    ensures users { desk.new.users ≡ desk.old.users }
    ensures attending { desk.new.attending ≡ desk.old.attending }
    ensures reader { desk.new.reader ≡ desk.old.reader }
    ensures hung_up { K.hung_up link.new ≡ K.hung_up link.old }
    ensures told { ToldBetween (telling K.told C.told C.stamped)
        (desk_at (K.state link.old) (C.coming clock.old) desk.old)
        (desk_at (K.state link.new) (C.coming clock.new) desk.new) result
        (found_notices looked.since looked.newest desk.old.changes.items) }
    ensures stamped { AreStamped C.stamped
        (stamp_at (C.coming clock.old) (K.state link.old) desk.old.seat desk.old.users.seat)
        (K.state link.new) (C.coming clock.new) }
{
    let before = looked.newest - desk.changes.as_slice().len() as u64;
    match tell_lost(desk, link, clock, looked.since, before) {
        Sent::Whole => tell_changes(desk, link, clock, before),
        Sent::Cut => Sent::Cut,
    }
}

/// Writes the report of changes that were lost, if some were.
fn tell_lost<K: Link, C: Timestamps, D: Disk + Drop, U: Disk + Drop>(
    desk: &mut Desk<D, U>,
    link: &mut K,
    clock: &mut C,
    since: Since,
    before: u64,
) -> Sent
    ensures shelf { desk.new.shelf ≡ desk.old.shelf }
    ensures seat { desk.new.seat ≡ desk.old.seat }
    ensures users { desk.new.users ≡ desk.old.users }
    ensures attending { desk.new.attending ≡ desk.old.attending }
    ensures reader { desk.new.reader ≡ desk.old.reader }
    ensures hung_up { K.hung_up link.new ≡ K.hung_up link.old }
    ensures changes { desk.new.changes ≡ desk.old.changes }
    ensures told { ToldBetween (telling K.told C.told C.stamped)
        (desk_at (K.state link.old) (C.coming clock.old) desk.old)
        (desk_at (K.state link.new) (C.coming clock.new) desk.new) result
        (lead since before) }
    ensures stamped { AreStamped C.stamped
        (stamp_at (C.coming clock.old) (K.state link.old) desk.old.seat desk.old.users.seat)
        (K.state link.new) (C.coming clock.new) }
{
    match since {
        Since::All(_) => Sent::Whole,
        Since::Lost(count) => {
            lost_text(&mut desk.text, count);
            tell_one(desk, link, clock, before)
        }
    }
}

/// Writes a report of each change, numbered from the one after `before`.
fn tell_changes<K: Link, C: Timestamps, D: Disk + Drop, U: Disk + Drop>(
    desk: &mut Desk<D, U>,
    link: &mut K,
    clock: &mut C,
    before: u64,
) -> Sent
    requires few { before + length desk.old.changes.items < 2 ^ 64 }
    requires of_shape { AllByRecursion (IsChangeOf desk.old.seat.opening.first.fold.table.shape)
        desk.old.changes.items }
    ensures shelf { desk.new.shelf ≡ desk.old.shelf }
    ensures seat { desk.new.seat ≡ desk.old.seat }
    ensures users { desk.new.users ≡ desk.old.users }
    ensures attending { desk.new.attending ≡ desk.old.attending }
    ensures reader { desk.new.reader ≡ desk.old.reader }
    ensures hung_up { K.hung_up link.new ≡ K.hung_up link.old }
    ensures told { ToldBetween (telling K.told C.told C.stamped)
        (desk_at (K.state link.old) (C.coming clock.old) desk.old)
        (desk_at (K.state link.new) (C.coming clock.new) desk.new) result
        (numbered before desk.old.changes.items) }
    ensures stamped { AreStamped C.stamped
        (stamp_at (C.coming clock.old) (K.state link.old) desk.old.seat desk.old.users.seat)
        (K.state link.new) (C.coming clock.new) }
{
    for at in 0..desk.changes.as_slice().len() {
        match tell_change(desk, link, clock, before, at) {
            Sent::Whole => {}
            Sent::Cut => return Sent::Cut,
        }
    }
    Sent::Whole
}

/// Writes the report of the change at a place of the list.
fn tell_change<K: Link, C: Timestamps, D: Disk + Drop, U: Disk + Drop>(
    desk: &mut Desk<D, U>,
    link: &mut K,
    clock: &mut C,
    before: u64,
    at: usize,
) -> Sent
    requires within { at < length desk.old.changes.items }
    requires few { before + length desk.old.changes.items < 2 ^ 64 }
    requires of_shape { AllByRecursion (IsChangeOf desk.old.seat.opening.first.fold.table.shape)
        desk.old.changes.items }
    ensures shelf { desk.new.shelf ≡ desk.old.shelf }
    ensures seat { desk.new.seat ≡ desk.old.seat }
    ensures users { desk.new.users ≡ desk.old.users }
    ensures attending { desk.new.attending ≡ desk.old.attending }
    ensures reader { desk.new.reader ≡ desk.old.reader }
    ensures hung_up { K.hung_up link.new ≡ K.hung_up link.old }
    ensures changes { desk.new.changes ≡ desk.old.changes }
    ensures told { (d : Change) → ReportedBetween (telling K.told C.told C.stamped)
        (desk_at (K.state link.old) (C.coming clock.old) desk.old)
        (desk_at (K.state link.new) (C.coming clock.new) desk.new) result
        (λ m. (language (arc_value desk.old.shelf)).report m
        (change (before + at + 1) (slice_index_or desk.old.changes.items at d))) }
    ensures stamped { C.stamped (stamp_at (C.coming clock.old) (K.state link.old) desk.old.seat
        desk.old.users.seat) }
{
    change_text(desk.shelf.shape(), &desk.changes[at], &mut desk.text);
    tell_one(desk, link, clock, before + at as u64 + 1)
}

/// Writes one report of the text with the next moment.
fn tell_one<K: Link, C: Timestamps, D: Disk + Drop, U: Disk + Drop>(
    desk: &mut Desk<D, U>,
    link: &mut K,
    clock: &mut C,
    number: u64,
) -> Sent
    ensures shelf { desk.new.shelf ≡ desk.old.shelf }
    ensures seat { desk.new.seat ≡ desk.old.seat }
    ensures users { desk.new.users ≡ desk.old.users }
    ensures attending { desk.new.attending ≡ desk.old.attending }
    ensures reader { desk.new.reader ≡ desk.old.reader }
    ensures hung_up { K.hung_up link.new ≡ K.hung_up link.old }
    ensures changes { desk.new.changes ≡ desk.old.changes }
    ensures told { ReportedBetween (telling K.told C.told C.stamped)
        (desk_at (K.state link.old) (C.coming clock.old) desk.old)
        (desk_at (K.state link.new) (C.coming clock.new) desk.new) result
        (λ m. whole_report (arc_value desk.old.shelf).sid m number desk.old.text.items) }
    ensures stamped { C.stamped (stamp_at (C.coming clock.old) (K.state link.old) desk.old.seat
        desk.old.users.seat) }
{
    let moment = clock.stamp(link, &desk.seat, &desk.users.seat);
    desk.answer
        .report(desk.shelf.sid(), moment, number, desk.text.as_slice());
    write_all(link, desk.answer.bytes())
}

fn lost_text(text: &mut ArrayVec<u8, 128>, count: u64)
    ensures { text.new.items ≡ text_of_lost count }
{
    text.clear();
    let _ = text.try_extend_from_slice(b"\"LOST=");
    let _ = text.try_extend_from_slice(itoa::Buffer::new().format(count).as_bytes());
    let _ = text.try_extend_from_slice(b"\"");
}
