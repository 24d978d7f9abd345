ghost use Rattle.std.specs.Prelude.{◌≡◌, ◌≤◌, IfOk, IsErr, vec_capacity};
ghost use Rattle.dxc_causes.specs.Stops.{RoseOnlyFor};
ghost use Rattle.dxc_num.specs.Dimensions.{ports};
ghost use Rattle.craft_session.specs.Asks.{IsAptActed, IsAptAsk, cursor_from, user_after};
ghost use Rattle.craft_session.specs.Acting.{ActedFrom, came};
ghost use Rattle.craft_session.specs.Gated.{AreStateEntered};
ghost use Rattle.craft_session.specs.Seats.{IsSameSeat, SeatGoesOn};

use crate::ask::{Acted, Ask};
use crate::attending::Attending;
use crate::change::Changed;
use crate::seat::Seat;
use dxc_disk::Disk;
use dxc_model::{Conn, SessionUser};
use dxc_outside::{Gate, Stopped};
use std::sync::Wait;

/// Does what was asked; the rows of a listing stand in `rows` then.
#[inline(always)]
pub fn act<D: Disk + Drop, G: Gate, R: Wait>(
    seat: &mut Seat<D>,
    attending: &mut Attending,
    rows: &mut Vec<Conn>,
    ask: &Ask,
    gate: &mut G,
    rt: &R,
) -> Result<Acted, Stopped>
    requires room { ports seat.old.opening.first.fold.table.shape ≤ vec_capacity rows.old }
    requires apt { IsAptAsk seat.old.opening.first.fold.table.shape ask.now }
    ensures same { IsSameSeat seat.old seat.new }
    ensures goes { SeatGoesOn seat.old seat.new }
    ensures acts { ActedFrom seat.old attending.old ask.now
        (came result rows.new.items attending.new seat.new.seen) }
    ensures of_shape { IfOk result
        (IsAptActed seat.old.opening.first.fold.table.shape rows.new.items) }
    ensures user { attending.new.user ≡ user_after attending.old.user ask.now }
    ensures room { vec_capacity rows.new ≡ vec_capacity rows.old }
    ensures stopped { RoseOnlyFor (G.stops gate.old) (G.stops gate.new) (IsErr result) }
    ensures entered { AreStateEntered seat.old (G.asked gate.old gate.new) seat.new.seen }
{
    match ask {
        Ask::Refused(cause) => Ok(Acted::Denied(*cause)),
        Ask::LogsIn(named) => {
            attending.user = *named;
            Ok(Acted::Completed)
        }
        Ask::LogsOut => {
            attending.user = SessionUser::Nobody;
            attending.watch = None;
            Ok(Acted::Completed)
        }
        Ask::Completes => Ok(Acted::Completed),
        Ask::Allows => {
            let newest = seat.mark(rt);
            attending.watch = Some(cursor(attending.watch, newest));
            Ok(Acted::Completed)
        }
        Ask::Inhibits => {
            attending.watch = None;
            Ok(Acted::Completed)
        }
        Ask::Lists(selection) => {
            seat.rows(*selection, rows, rt);
            Ok(Acted::Listed)
        }
        Ask::Shows(subject) => {
            let inventory = seat.inventory(rt);
            Ok(Acted::Shown(*subject, inventory))
        }
        Ask::Restarts => match seat.restart(gate, rt)? {
            Changed::Done => Ok(Acted::Restarted),
            Changed::Denied(cause) => Ok(Acted::Denied(cause)),
        },
        Ask::Changes(op) => match seat.change(op, gate, rt)? {
            Changed::Done => Ok(Acted::Completed),
            Changed::Denied(cause) => Ok(Acted::Denied(cause)),
        },
    }
}

/// From where on changes are reported: from the last one that was, or, where reports begin, from the newest.
fn cursor(watch: Option<u64>, newest: u64) -> u64
    ensures { result ≡ cursor_from watch newest }
{
    match watch {
        Some(reported) => reported,
        None => newest,
    }
}
